// The cell that stops the workers of a run.
ghost use Rattle.std.specs.Prelude.{IfOk};
ghost use Rattle.flow_defs.specs.Jobs.{IsJob};
ghost use Rattle.job_run.specs.Cells.{AreStopsOf};

use flow_defs::{Job, ListOf};
use job_deploy::stops_needed;
use outside::StopState;
use std::alloc::{AllocError, Global};
use turn_cell::{Pass, TurnCell};

/// The cell that stops all workers of a job, with the passes of it of tasks, gates and loops, one for the worker
/// that collects, and one for the run itself.
#[derive(Drop)]
pub struct StopPasses {
    pub cell: TurnCell<StopState>,
    pub workers: ListOf<Pass<StopState>>,
    pub collecting: Pass<StopState>,
    pub own: Pass<StopState>,
}

/// A stop cell with as many passes as the tasks, gates and loops of a job need, and two more.
pub fn open_stops(alloc: Global, job: &Job) -> Result<StopPasses, AllocError>
    requires { IsJob job.now }
    ensures { IfOk result (λ stops. AreStopsOf job.now stops) }
{
    let passes = stops_needed(job) + 2;
    let Ok((cell, mut workers)) = TurnCell::new(alloc, StopState::new(), passes) else {
        return Err(AllocError);
    };
    let own = workers.take_last();
    let collecting = workers.take_last();
    Ok(StopPasses {
        cell,
        workers,
        collecting,
        own,
    })
}
