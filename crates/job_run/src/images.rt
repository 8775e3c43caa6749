// The cell that tells the workers of a run which image was stored last.
ghost use Rattle.std.specs.Prelude.{◌≡◌, reverse, IfOk};
ghost use Rattle.flow_defs.specs.Jobs.{IsJob};
ghost use Rattle.job_run.specs.Cells.{AreImagePassesOf};

use flow_defs::{Job, ListOf};
use job_deploy::tasks_needed;
use outside::LastImage;
use std::alloc::{AllocError, Global};
use turn_cell::{Pass, TurnCell};

/// The cell that tells which image was stored last, with the pass of it of the worker that collects, by which alone
/// entries are made, and those of the tasks.
#[derive(Drop)]
pub struct ImagePasses {
    pub cell: TurnCell<LastImage>,
    pub collecting: Pass<LastImage>,
    pub tasks: ListOf<Pass<LastImage>>,
}

// Turns the order of passes round.
fn reverse_all(passes: &mut ListOf<Pass<LastImage>>)
    ensures { passes.new.items ≡ reverse passes.old.items }
{
    passes.as_mut_slice().reverse();
}

/// Such a cell, with one pass more than a job has tasks: the first, with the number 0, is that of the worker that
/// collects.
pub fn open_images(alloc: Global, job: &Job) -> Result<ImagePasses, AllocError>
    requires { IsJob job.now }
    ensures { IfOk result (λ images. AreImagePassesOf job.now images) }
{
    let passes = tasks_needed(job) + 1;
    let Ok((cell, mut tasks)) = TurnCell::new(alloc, LastImage::new(), passes) else {
        return Err(AllocError);
    };
    reverse_all(&mut tasks);
    let collecting = tasks.take_last();
    Ok(ImagePasses {
        cell,
        collecting,
        tasks,
    })
}
