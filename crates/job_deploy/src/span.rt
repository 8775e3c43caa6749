// How many tasks a job has.
ghost use Rattle.std.specs.Prelude.{◌≡◌, ◌≤◌, length};
ghost use Rattle.flow_defs.specs.Jobs.{IsJob};
ghost use Rattle.snapshot_channel.specs.Snapshots.{all_tasks};

use flow_defs::Job;

/// How many tasks a job has, each of which needs a pass of the channel of snapshots and one of the cell with
/// the last image. At most 64.
pub fn tasks_needed(job: &Job) -> u32
    requires { IsJob job.now }
    ensures is { result ≡ length (all_tasks job.now) }
    ensures few { result ≤ 64 }
{
    let mut needed = 0;
    for stage in 0..job.edges() + 1 {
        needed += job.tasks(stage);
    }
    needed
}
