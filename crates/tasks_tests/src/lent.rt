// From where the tasks of a test go on, and the cell of the last image, as the tests of tasks lend them.
ghost use Rattle.std.specs.Prelude.{◌≡◌, IfOk};
ghost use Rattle.turn_cell.specs.Passes.{IsPassOf};
ghost use Rattle.flow_defs.specs.Jobs.{IsJob};

use fixtures::open_last_image;
use flow_defs::{Job, ListOf};
use job_start::Start;
use outside::{LastImage, Stored, tell_stored};
use std::alloc::{AllocError, Global};
use std::sync::Wait;
use turn_cell::{Pass, TurnCell};

// The cell of the last image, which is this one, if there is one, and the pass of a task.
pub fn shared_last<R: Wait>(
    rt: &R,
    alloc: Global,
    stored: Option<Stored>,
) -> Result<(TurnCell<LastImage>, Pass<LastImage>), AllocError>
    ensures { IfOk result (λ r. IsPassOf r.0 r.1) }
{
    let (cell, mut collecting, reading) = open_last_image(alloc)?;
    if let Some(stored) = stored {
        tell_stored(rt, &cell, &mut collecting, stored);
    }
    Ok((cell, reading))
}

// A checkpoint from which tasks go on: its number, how many lines each source has read there and whether it is at
// its end, and how many records each task that sends has emitted.
#[derive(Clone, Copy)]
pub struct Point {
    pub number: u64,
    pub offsets: &'static [u64],
    pub ended: &'static [bool],
    pub emitted: &'static [u64],
}

// The start of a job: this point, or where there is none its beginning. Nothing is counted there.
pub fn start_at(alloc: Global, job: &Job, point: Option<Point>) -> Result<Start, AllocError>
    requires { IsJob job.now }
{
    let mut start = Start::new(alloc, job)?;
    if let Some(point) = point {
        start.number = point.number;
        replace(&mut start.offsets, point.offsets)?;
        replace(&mut start.ended, point.ended)?;
        replace(&mut start.emitted, point.emitted)?;
    }
    Ok(start)
}

// Puts these items in place of those of a list.
fn replace<T: Copy + Drop>(list: &mut ListOf<T>, items: &[T]) -> Result<(), AllocError> {
    list.clear();
    list.extend(items)
}
