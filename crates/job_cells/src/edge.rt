// The cells of an edge, and their passes.

use flow_defs::{ChannelId, ListOf};
use input_channel::InputChannel;
use local_pool::HeldPool;
use reader_state::ReaderState;
use subpartition::Subpartition;
use turn_cell::{Pass, TurnCell};

/// The cells of an edge of a job. Those of its channels stand in the order of the channels: by receiving
/// task, and then by sending task.
#[derive(Drop)]
pub struct Edge<'p> {
    pub channels: ListOf<ChannelId>,
    pub readers: TurnCell<ReaderState>,
    pub subpartitions: ListOf<TurnCell<Subpartition>>,
    pub inputs: ListOf<TurnCell<InputChannel>>,
    /// The local pools of the sending tasks' partitions, and those of the receiving tasks' gates.
    pub partitions: ListOf<TurnCell<HeldPool<'p>>>,
    pub gates: ListOf<TurnCell<HeldPool<'p>>>,
}

/// The passes of an edge's cells: of the two loops at the readers, of each sending task and each gate at
/// their own channels, of the loops at all channels, and of tasks and loops at the pools.
#[derive(Drop)]
pub struct EdgePasses<'p> {
    pub send_items: Pass<ReaderState>,
    pub read_control: Pass<ReaderState>,
    pub senders: ListOf<ListOf<Pass<Subpartition>>>,
    pub takers: ListOf<Pass<Subpartition>>,
    pub sizers: ListOf<Pass<Subpartition>>,
    pub gates: ListOf<ListOf<Pass<InputChannel>>>,
    pub pushers: ListOf<Pass<InputChannel>>,
    pub tellers: ListOf<Pass<InputChannel>>,
    pub task_partitions: ListOf<Pass<HeldPool<'p>>>,
    pub loop_partitions: ListOf<Pass<HeldPool<'p>>>,
    pub task_gates: ListOf<Pass<HeldPool<'p>>>,
    pub loop_gates: ListOf<Pass<HeldPool<'p>>>,
}
