// What a loop of a connection is lent, and what it hands back.

use flow_defs::{Cause, ChannelId, ListOf};
use input_channel::InputChannel;
use local_pool::HeldPool;
use outside::StopState;
use reader_state::ReaderState;
use subpartition::Subpartition;
use turn_cell::{Pass, TurnCell};

/// What a connection lends to one of its loops. Each cell is lent by itself, and those of channels stand
/// in the order of the channels.
#[derive(Drop)]
pub struct ConnShare<'a, 'p> {
    /// The connection's channels.
    pub channels: &'a [ChannelId],
    /// The length of a segment, in bytes.
    pub size: u32,
    pub readers: &'a TurnCell<ReaderState>,
    pub subpartitions: &'a [TurnCell<Subpartition>],
    pub inputs: &'a [TurnCell<InputChannel>],
    /// The local pools of the tasks at the loop's end of the connection, in the order of the tasks.
    pub pools: &'a [TurnCell<HeldPool<'p>>],
    pub stop: &'a TurnCell<StopState>,
    pub passes: SharePasses<'p>,
}

/// A loop's passes, one of each cell that it enters, in the order of the cells.
#[derive(Drop)]
pub struct SharePasses<'p> {
    pub readers: Option<Pass<ReaderState>>,
    pub subpartitions: ListOf<Pass<Subpartition>>,
    pub inputs: ListOf<Pass<InputChannel>>,
    pub pools: ListOf<Pass<HeldPool<'p>>>,
    pub stop: Pass<StopState>,
}

/// A loop's half of a link and its passes, and why it ended.
#[derive(Drop)]
pub struct LoopEnd<'p, H> {
    pub half: H,
    pub passes: SharePasses<'p>,
    pub cause: Cause,
}
