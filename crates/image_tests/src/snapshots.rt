// Snapshots of tasks with nothing in their state.
ghost use Rattle.std.specs.Prelude.{◌≡◌};
ghost use Rattle.flow_defs.specs.declared.job.Job.{Job as AnyJob};
ghost use Rattle.snapshot_channel.specs.Snapshots.{FitsTask};

use flow_defs::{ListOf, Snapshot, Table, TaskId};
use std::alloc::Global;

// What a task with nothing in its state tells of a checkpoint.
pub fn told(alloc: Global, task: TaskId, number: u64, ended: bool) -> Snapshot
    ensures task { result.task ≡ task }
    ensures number { result.number ≡ number }
    ensures ended { result.ended ≡ ended }
    ensures fits { (job : AnyJob) → FitsTask job result }
{
    Snapshot {
        task,
        number,
        offset: 0,
        ended,
        emitted: 0,
        table: Table::new(alloc),
        takes: ListOf::new(alloc),
        saved_in: ListOf::new(alloc),
        saved_out: ListOf::new(alloc),
    }
}
