// The entries that the history of a channel's receiving end is made of.

use flow_defs::Parcel;
use std::collections::LinkedList;
use std::marker::Brand;
use turn_cell::Named;

/// Which buffer a poll gave.
#[derive(Clone, Copy, Debug, PartialEq, Eq)]
pub enum Gave {
    NoBuffer,
    Exclusive,
    Floating,
}

/// What was done to a channel's receiving end. Histories are made of it; no value of it is made.
pub enum ReceiveEntry {
    /// Something arrived, with the backlog that was told beside it.
    Push { parcel: Parcel, backlog: u32 },
    Poll { hold: bool, gave: Gave },
    /// A buffer came back.
    Returned { exclusive: bool },
    /// A floating buffer came.
    Added,
    /// A backlog was announced.
    Backlog(u32),
    /// So much credit was told to the sender.
    Credit(u32),
    Shut,
    /// A resumption was asked for.
    Ask,
    /// A resumption was taken.
    Resume,
    /// A save was opened for barrier k. `rest` is what was polled last of a record that is not whole.
    Save { k: u64, rest: LinkedList<u8> },
    /// The save for barrier k was closed.
    Saved(u64),
}

impl Named<ReceiveEntry> for Brand {
    ghost use Rattle.input_channel.specs.declared.entry.ReceiveEntry.TheVariants.{Added};

    ghost entry = { Added };
}
