// What a task is lent to write its records.

use flow_defs::ListOf;
use local_pool::HeldPool;
use subpartition::Subpartition;
use turn_cell::{Pass, TurnCell};

/// A task's result partition: the subpartitions of its channels and the local pool from which their
/// buffers come.
///
/// The subpartitions of the whole edge are lent. Channel c of the task stands at the place
/// `first + c * stride` among them.
#[derive(Drop)]
pub struct Partition<'a, 'p> {
    pub subpartitions: &'a [TurnCell<Subpartition>],
    pub first: usize,
    pub stride: usize,
    pub pool: &'a TurnCell<HeldPool<'p>>,
    /// The length of a segment, in bytes.
    pub size: u32,
    pub passes: PartitionPasses<'p>,
}

/// A partition's passes: one of the cell of each channel of the task, in the order of the channels, and
/// one of the cell of its pool.
#[derive(Drop)]
pub struct PartitionPasses<'p> {
    pub subpartitions: ListOf<Pass<Subpartition>>,
    pub pool: Pass<HeldPool<'p>>,
}
