// The passes of the stop cell that the workers of a job need.
ghost use Rattle.std.specs.Prelude.{◌≡◌, ◌≤◌};
ghost use Rattle.flow_defs.specs.Jobs.{IsJob};
ghost use Rattle.job_deploy.specs.Stops.{stops_needed};

use flow_defs::Job;

/// How many passes of the stop cell the workers of a job need: one for each task, one for each gate, and one
/// for each loop. At most 148.
pub fn stops_needed(job: &Job) -> u32
    requires { IsJob job.now }
    ensures is { result ≡ stops_needed job.now }
    ensures few { result ≤ 148 }
{
    let mut needed = job.tasks(0);
    for e in 0..job.edges() {
        needed += 2 * job.tasks(e + 1) + 4;
    }
    needed
}
