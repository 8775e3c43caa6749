// The readers as the state of a turn cell.

use crate::entry::ReaderEntry;
use crate::state::ReaderState;
use flow_defs::ChannelId;
use std::collections::LinkedList;
use std::marker::Brand;
use turn_cell::{Named, Turned};

impl Turned for ReaderState {
    ghost use Rattle.reader_state.specs.Ledgers.{channels_of};
    ghost use Rattle.reader_state.specs.Standing.{LedgerStandsFor};

    type Entry = ReaderEntry;

    // The list of its channels.
    type Fixed = LinkedList<ChannelId>;

    ghost stands = { λ state history. LedgerStandsFor state history };

    ghost fixed = { λ state. channels_of state };
}

impl Named<ReaderEntry> for Brand {
    ghost use Rattle.reader_state.specs.declared.entry.ReaderEntry.TheVariants.{Told};

    ghost entry = { Told (record { edge = 0; from = 0; to = 0 }) };
}
