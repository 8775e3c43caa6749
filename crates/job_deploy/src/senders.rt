// The sending tasks of an edge.
ghost use Rattle.std.specs.Prelude.{◌≡◌, ◌<◌, ◌≤◌, suc, length};
ghost use Rattle.flow_defs.specs.Jobs.{IsJob, last_edge, tasks};
ghost use Rattle.record_writer.specs.Partitions.{IsPartitionOf};
ghost use Rattle.job_cells.specs.Edges.{IsEdgeOf};
ghost use Rattle.job_deploy.specs.Placing.{AreSenders, IsOverCells};

use crate::order::item_at;
use flow_defs::{Job, ListOf};
use job_cells::Edge;
use local_pool::HeldPool;
use record_writer::{Partition, PartitionPasses};
use subpartition::Subpartition;
use turn_cell::Pass;

/// Of the first of the tasks before an edge, which have no partitions yet, the passes of their channels and of
/// their pools.
#[derive(Drop)]
pub struct Senders<'p> {
    pub own: ListOf<ListOf<Pass<Subpartition>>>,
    pub pools: ListOf<Pass<HeldPool<'p>>>,
}

impl<'p> Senders<'p> {
    /// The partition of the last of these tasks, in constant time.
    pub fn next<'a>(
        &mut self,
        job: &Job,
        e: usize,
        size: u32,
        edge: &'a Edge<'p>,
    ) -> Partition<'a, 'p>
        requires is_job { IsJob job.now × (e ≤ last_edge job.now) }
        requires edge { IsEdgeOf job.now e size edge.now }
        requires senders { AreSenders job.now e edge.now self.old }
        requires some { 0 < length self.old.own.items }
        ensures senders { AreSenders job.now e edge.now self.new }
        ensures fewer { length self.old.own.items ≡ suc (length self.new.own.items) }
        ensures partition { IsPartitionOf job.now e (length self.new.own.items) result }
        ensures cells { IsOverCells job.now e (length self.new.own.items) size edge.now result }
    {
        let own = self.own.take_last();
        let pool = self.pools.take_last();
        let first = self.own.as_slice().len();
        Partition {
            subpartitions: edge.subpartitions.as_slice(),
            first,
            stride: job.tasks(e) as usize,
            pool: item_at(edge.partitions.as_slice(), first),
            size,
            passes: PartitionPasses {
                subpartitions: own,
                pool,
            },
        }
    }
}
