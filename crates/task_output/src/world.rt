// What a task shares with others, and what it hands back.

use crate::acks::Acks;
use flow_defs::{Cause, ListOf, TakeRun};
use outside::{LastImage, StopState};
use snapshot_channel::TaskPass;
use turn_cell::{Pass, TurnCell};

/// What a task shares with others beside the job and its functions: the partition on which it sends, by what it
/// acknowledges checkpoints, and what stops all workers. A task that sends nothing has () for a partition.
#[derive(Drop)]
pub struct World<'a, P> {
    pub partition: P,
    pub acks: Acks<'a>,
    pub stop: &'a TurnCell<StopState>,
    pub stop_pass: Pass<StopState>,
}

/// The passes that a task hands back.
#[derive(Drop)]
pub struct WorldPasses<P> {
    pub partition: P,
    pub snapshots: TaskPass,
    pub last_image: Pass<LastImage>,
    pub stop: Pass<StopState>,
}

/// How a task ended, with the gate from which it took. A source took from none, and has ().
#[derive(Drop)]
pub struct TaskEnd<G, P> {
    pub gate: G,
    pub passes: WorldPasses<P>,
    /// The records that it took behind the last snapshot that it sent, in order: so many of one sender after so
    /// many of another.
    pub takes: ListOf<TakeRun>,
    /// How many snapshots it sent.
    pub acks: u64,
    pub cause: Cause,
}
