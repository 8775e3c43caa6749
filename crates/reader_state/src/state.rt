// The readers of a connection, with what came too early for them.
ghost use Rattle.std.specs.Prelude.{◌≡◌, ◌≤◌, None, Some, [], slice_get, IsSome, IsTrue, IfOk, IfErr, IfSome, IfNone, OnOk, OnErr, false};
ghost use Rattle.flow_defs.specs.declared.cause.PeerFault.TheVariants.{Channel};
ghost use Rattle.std.specs.Option.{option_map};
ghost use Rattle.flow_defs.specs.Limits.{credit_max};
ghost use Rattle.credit_reader.specs.Senders.{AreDistinct, reader_of, is_able};
ghost use Rattle.credit_reader.specs.Answers.{due_first, told_of};
ghost use Rattle.reader_state.specs.declared.entry.ReaderEntry.TheVariants.{Ready, Sent, Told as WasTold, Asked, Granted, Resumed};
ghost use Rattle.reader_state.specs.Ledgers.{opened, ledger_next, settled, is_requested, MayEnter};
ghost use Rattle.reader_state.specs.Standing.{LedgerStandsFor};
ghost use Rattle.reader_state.specs.Settling.{put_at, first_overdue, IsAsked, IsEarlyKept, Took};

use crate::settle::{after_sent, none_early, overdue_of, place_of, settle};
use credit_reader::laws::readers_are_in_order;
use credit_reader::{Readers, SentKind, Told};
use flow_defs::{ChannelId, Head, ListOf, PeerFault};
use std::alloc::{AllocError, Global};
use std::marker::Model;

/// What came too early on a channel, and whether its end was sent.
#[derive(Clone, Copy, Drop)]
pub struct Early {
    pub channel: ChannelId,
    /// Credit that doesn't fit yet, in buffers. It stops at 2^64 − 1.
    pub credit: u64,
    /// Resumptions that came before the channel was blocked. They stop at 2^64 − 1.
    pub resumptions: u64,
    /// Whether the end was sent.
    pub ended: bool,
}

// An early part and its place.
#[derive(Clone, Copy)]
pub struct Kept {
    pub place: usize,
    pub early: Early,
}

/// The readers of one connection's channels, and per channel the credit and the resumptions that came
/// too early, which are given as soon as they fit.
///
/// A channel is found by a walk of the channels. No call but `new` takes memory.
#[derive(Drop)]
pub struct ReaderState {
    pub(crate) readers: Readers,
    // In the order of the readers.
    pub(crate) early: ListOf<Early>,
}

impl Model for ReaderState {
    ghost use Rattle.std.specs.Prelude.{◌≡◌, map};
    ghost use Rattle.reader_state.specs.Ledgers.{Ledger};

    ghost Value = { Ledger };

    ghost view = { λ s. record { sender = s.readers; early = s.early.items } };

    ghost invariant = { λ s. map (λ e. e.channel) s.early.items ≡ map (λ r. r.channel) s.readers.readers };
}

impl ReaderState {
    /// The readers of these channels, before any is requested. After this nothing takes memory.
    pub fn new(alloc: Global, channels: &[ChannelId]) -> Result<Self, AllocError>
        requires { AreDistinct channels.now }
        ensures opened { IfOk result (λ state. state ≡ opened channels.now) }
        ensures stands { IfOk result (λ state. LedgerStandsFor state []) }
    {
        let readers = Readers::new(alloc, channels)?;
        let early = none_early(alloc, channels)?;
        Ok(ReaderState { readers, early })
    }

    /// Tells the reader of a channel what stands first there, and how many data buffers wait.
    pub fn ready(&mut self, channel: ChannelId, head: Head, backlog: u32)
        requires known { IsSome (reader_of channel self.old.sender.readers) }
        requires fits { backlog ≤ credit_max }
        ensures { self.new ≡ ledger_next self.old (Ready channel head backlog) }
    {
        self.readers.ready(channel, head, backlog);
    }

    /// The channel whose turn it is to send one item. None where no reader can send.
    pub fn next(&self) -> Option<ChannelId>
        ensures first { result ≡ slice_get self.now.sender.queue 0 }
        ensures can { IfSome result (λ channel. IsTrue (is_able channel self.now.sender.readers)) }
    {
        self.readers.next()
    }

    /// Takes note that the channel whose turn it was has sent one item, and of what stands first there
    /// now, and gives what then fits. Answers the item's sequence number, modulo 2^32.
    pub fn sent(&mut self, channel: ChannelId, what: SentKind, head: Head, backlog: u32) -> u32
        requires { MayEnter self.old (Sent channel what head backlog) }
        ensures number { option_map (λ r. r.sequence) (reader_of channel self.old.sender.readers) ≡ Some result }
        ensures sent { self.new ≡ ledger_next self.old (Sent channel what head backlog) }
    {
        let Some(kept) = self.find(channel) else {
            unreachable!()
        };
        readers_are_in_order(&self.readers);
        let number = self.readers.sent(channel, what, head, backlog);
        match self.settle(kept, after_sent(kept.early, what)) {
            Ok(()) => number,
            Err(_) => unreachable!(),
        }
    }

    /// The announcement of a backlog that is due first, in the order of the channels. It is then made.
    pub fn announce(&mut self) -> Option<Told>
        ensures due { result ≡ option_map told_of (due_first self.old.sender) }
        ensures fits { IfSome result (λ told. (1 ≤ told.backlog) × (told.backlog ≤ credit_max)) }
        ensures own { IfSome result (λ told. option_map told_of (reader_of told.channel self.old.sender.readers) ≡ Some told) }
        ensures told { IfSome result (λ told. self.new ≡ ledger_next self.old (WasTold told.channel)) }
        ensures none { IfNone result (self.new ≡ self.old) }
    {
        readers_are_in_order(&self.readers);
        self.readers.announce()
    }

    /// Takes a partition request, with the credit to begin with.
    pub fn request(&mut self, channel: ChannelId, credit: u32) -> Result<(), PeerFault>
        requires { credit ≤ credit_max }
        ensures { Took (Asked channel credit) self.old self.new result }
    {
        match self.readers.request(channel, credit) {
            Ok(()) => Ok(()),
            Err(_) => Err(PeerFault::Channel),
        }
    }

    /// Takes more credit, in buffers, and gives what fits.
    pub fn grant(&mut self, channel: ChannelId, credit: u32) -> Result<(), PeerFault>
        requires { (1 ≤ credit) × (credit ≤ credit_max) }
        ensures { Took (Granted channel credit) self.old self.new result }
    {
        let Some(kept) = self.find(channel) else {
            return Err(PeerFault::Channel);
        };
        let credit = kept.early.credit.saturating_add(u64::from(credit));
        self.settle(
            kept,
            Early {
                credit,
                ..kept.early
            },
        )
    }

    /// Takes a resumption, and gives it if the channel is blocked.
    pub fn resume(&mut self, channel: ChannelId) -> Result<(), PeerFault>
        ensures { Took (Resumed channel) self.old self.new result }
    {
        let Some(kept) = self.find(channel) else {
            return Err(PeerFault::Channel);
        };
        let resumptions = kept.early.resumptions.saturating_add(1);
        self.settle(
            kept,
            Early {
                resumptions,
                ..kept.early
            },
        )
    }

    /// What is still kept of the first channel, in order, whose end was sent: credit, and else a
    /// resumption.
    pub fn overdue(&self) -> Option<PeerFault>
        ensures { result ≡ first_overdue self.now.early }
    {
        let kept = self.early.as_slice();
        for early in kept {
            if let Some(fault) = overdue_of(*early) {
                return Some(fault);
            }
        }
        None
    }

    // The early part of a channel.
    pub(crate) fn find(&self, channel: ChannelId) -> Option<Kept>
        ensures found { IfSome result (λ kept. IsEarlyKept self.now.early channel kept) }
        ensures known { IfSome result (λ kept. IsSome (reader_of channel self.now.sender.readers)) }
        ensures none { IfNone result (reader_of channel self.now.sender.readers ≡ None) }
    {
        readers_are_in_order(&self.readers);
        let place = place_of(self.early.as_slice(), channel)?;
        Some(Kept {
            place,
            early: self.early.as_slice()[place],
        })
    }

    // Gives the reader of a channel what fits of this early part, and keeps the rest in its place. An
    // error, and nothing changes, where there is something to give and the channel was not requested.
    fn settle(&mut self, kept: Kept, early: Early) -> Result<(), PeerFault>
        requires { IsEarlyKept self.old.early early.channel kept }
        ensures ok { OnOk result (self.new ≡ settled early.channel (put_at kept.place early self.old)) }
        ensures asked { OnOk result (IsAsked self.old.sender early) }
        ensures err { OnErr result ((self.new ≡ self.old) × (is_requested early.channel self.old ≡ false)) }
        ensures fault { IfErr result (λ fault. fault ≡ Channel) }
    {
        let Some(left) = settle(&mut self.readers, early) else {
            return Err(PeerFault::Channel);
        };
        self.early.as_mut_slice()[kept.place] = left;
        Ok(())
    }
}
