//! The laws of readers. Each function does nothing; what it ensures is the law.
ghost use Rattle.std.specs.Prelude.{All, map};
ghost use Rattle.credit_reader.specs.Readers.{KeepsRanges};
ghost use Rattle.credit_reader.specs.Senders.{AreDistinct};
ghost use Rattle.credit_reader.specs.Laws.{HoldsEachOnce, FirstCanSend, AllAddUp, AllChangeOne, HistoriesBegin, HistoriesGrow, HistoriesGrowBySending, HistoriesAddUp};

use crate::Readers;

/// What is true of all readers, whatever was called: the queue has each of them that can send once and
/// no other, the first one has credit where data stand first, no two have one channel, and credit and
/// backlog fit in a frame.
pub fn readers_are_in_order(readers: &Readers)
    ensures queue { HoldsEachOnce readers.now }
    ensures first { FirstCanSend readers.now }
    ensures channels { AreDistinct (map (λ r. r.channel) readers.now.readers) }
    ensures ranges { All KeepsRanges readers.now.readers }
{
    let _ = &readers.all;
}

/// Over any list of happenings that may come, a reader's credit is all credit granted less all data
/// sent, and its next sequence number is the count of items sent.
pub fn credit_adds_up()
    ensures { AllAddUp }
{}

/// What happens to one reader changes no other.
pub fn happenings_change_one()
    ensures { AllChangeOne }
{}

/// A connection's history: it is empty at first and grows by each call, and by it the credit and the
/// numbers of each channel add up.
pub fn histories_add_up()
    ensures begin { HistoriesBegin }
    ensures grow { HistoriesGrow }
    ensures send { HistoriesGrowBySending }
    ensures add_up { HistoriesAddUp }
{}
