// What all workers of a run share beside edges and wires.
ghost use Rattle.std.specs.Prelude.{◌≡◌, IfOk};
ghost use Rattle.flow_defs.specs.Jobs.{IsJob};
ghost use Rattle.job_start.specs.Starts.{IsStartFor};
ghost use Rattle.job_run.specs.Cells.{AreCellsOf};

use crate::images::{ImagePasses, open_images};
use crate::stops::{StopPasses, open_stops};
use flow_defs::{Job, ListOf};
use job_deploy::tasks_needed;
use job_start::Start;
use outside::{LastImage, StopState};
use snapshot_channel::{CollectingPass, Opened, SnapshotChannel, TaskPass};
use std::alloc::{AllocError, Global};
use turn_cell::{Pass, TurnCell};

/// From where the tasks go on, the channel of snapshots, the cell of the image that was stored last, and the stop
/// cell.
#[derive(Drop)]
pub struct RunCells {
    pub start: Start,
    pub channel: SnapshotChannel,
    pub last_image: TurnCell<LastImage>,
    pub stop: TurnCell<StopState>,
}

/// The passes of them that workers have: of each the one of the worker that collects, and those of the others.
#[derive(Drop)]
pub struct CellPasses {
    pub collecting: CollectingPass,
    pub snapshots: ListOf<TaskPass>,
    pub last_collecting: Pass<LastImage>,
    pub last: ListOf<Pass<LastImage>>,
    pub stop_collecting: Pass<StopState>,
    pub stops: ListOf<Pass<StopState>>,
}

/// The cells with all passes, the run's own of the stop cell among them, and room for the passes of the channel when
/// the tasks have left them.
#[derive(Drop)]
pub struct OpenedCells {
    pub cells: RunCells,
    pub passes: CellPasses,
    pub own: Pass<StopState>,
    pub room: ListOf<TaskPass>,
}

/// What the workers of a job share that goes on from this start, where a source reads so many lines between two
/// checkpoints, from 1, or to its end where that is None. Checkpoints count on from the start.
pub fn open_cells(
    alloc: Global,
    job: &Job,
    start: Start,
    every: Option<u64>,
) -> Result<OpenedCells, AllocError>
    requires job { IsJob job.now }
    requires start { IsStartFor job.now start }
    ensures cells { IfOk result (λ opened. AreCellsOf job.now every opened) }
    ensures start { IfOk result (λ opened. opened.cells.start ≡ start) }
{
    let mut room = ListOf::new(alloc);
    room.reserve(tasks_needed(job) as usize)?;
    let opened = SnapshotChannel::open(alloc, job, &start, every)?;
    let images = open_images(alloc, job)?;
    let stops = open_stops(alloc, job)?;
    let Opened {
        channel,
        collecting,
        passes: snapshots,
    } = opened;
    let ImagePasses {
        cell: last_image,
        collecting: last_collecting,
        tasks: last,
    } = images;
    let StopPasses {
        cell: stop,
        workers,
        collecting: stop_collecting,
        own,
    } = stops;
    Ok(OpenedCells {
        cells: RunCells {
            start,
            channel,
            last_image,
            stop,
        },
        passes: CellPasses {
            collecting,
            snapshots,
            last_collecting,
            last,
            stop_collecting,
            stops: workers,
        },
        own,
        room,
    })
}
