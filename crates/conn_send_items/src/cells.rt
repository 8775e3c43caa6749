// What the loop takes apart of its share.

use flow_defs::{ChannelId, Head, ListOf};
use local_pool::HeldPool;
use reader_state::ReaderState;
use subpartition::Subpartition;
use turn_cell::{Pass, TurnCell};

/// The cells that the loop enters, beside the stop cell.
#[derive(Clone, Copy)]
pub struct SendCells<'a, 'p> {
    pub channels: &'a [ChannelId],
    pub size: u32,
    pub readers: &'a TurnCell<ReaderState>,
    pub subpartitions: &'a [TurnCell<Subpartition>],
    pub pools: &'a [TurnCell<HeldPool<'p>>],
}

/// The loop's passes of them.
#[derive(Drop)]
pub struct SendPasses<'p> {
    pub readers: Pass<ReaderState>,
    pub subpartitions: ListOf<Pass<Subpartition>>,
    pub pools: ListOf<Pass<HeldPool<'p>>>,
}

/// What stands first on a channel, and how many data buffers wait there.
#[derive(Clone, Copy, PartialEq, Eq)]
pub struct Front {
    pub head: Head,
    pub backlog: u32,
}
