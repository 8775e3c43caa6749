// An image in which nothing stands yet.
ghost use Rattle.std.specs.Prelude.{◌≡◌, ℕ, ◌+◌, ◌<◌, None, length, All, [], IfOk};
ghost use Rattle.flow_defs.specs.Items.{Items};
ghost use Rattle.flow_defs.specs.Jobs.{IsJob};
ghost use Rattle.collector.specs.Collecting.{task_count, kept_at};
ghost use Rattle.collector.specs.Filling.{IsBlank, AreEmpty};

use crate::collector::Checkpoint;
use crate::lists::copies;
use crate::places::{channels_before, tasks_before};
use flow_defs::{Bytes, Image, Job, ListOf, Snapshot, Table, TakeRun};
use plain_machine::laws;
use std::alloc::{AllocError, Global};

/// A place for the snapshot of each task.
pub fn no_snapshots(alloc: Global, job: &Job) -> Result<ListOf<Option<Snapshot>>, AllocError>
    requires { IsJob job.now }
    ensures many { IfOk result (λ slots. length slots.items ≡ task_count job.now) }
    ensures none { IfOk result (λ slots. (place : ℕ) → kept_at slots.items place ≡ None) }
{
    let mut slots = ListOf::new(alloc);
    for _task in 0..tasks_before(job, job.edges() + 1) {
        slots.push(None)?;
    }
    Ok(slots)
}

// So many tables of no keys.
fn no_tables(alloc: Global, many: usize) -> Result<ListOf<Table>, AllocError>
    ensures { IfOk result (λ tables. length tables.items ≡ many) }
{
    let mut tables = ListOf::new(alloc);
    for _made in 0..many {
        tables.push(Table::new(alloc))?;
    }
    Ok(tables)
}

// So many lists of no takes.
fn no_takes(alloc: Global, many: usize) -> Result<ListOf<ListOf<TakeRun>>, AllocError>
    ensures { IfOk result (λ takes. length takes.items ≡ many) }
{
    let mut takes = ListOf::new(alloc);
    for _made in 0..many {
        takes.push(ListOf::new(alloc))?;
    }
    Ok(takes)
}

// So many pieces of no bytes.
fn no_pieces(alloc: Global, many: usize) -> Result<ListOf<Bytes>, AllocError>
    ensures many { IfOk result (λ pieces. length pieces.items ≡ many) }
    ensures empty { IfOk result (λ pieces. AreEmpty pieces.items) }
{
    let mut pieces = ListOf::new(alloc);
    for _made in 0..many {
        pieces.push(Bytes::new(alloc))?;
    }
    Ok(pieces)
}

/// The image of a checkpoint with an item for each task and channel, each of them still zero, false or empty.
pub fn blank_image(alloc: Global, job: &Job, checkpoint: Checkpoint) -> Result<Image, AllocError>
    requires { IsJob job.now }
    ensures { IfOk result (IsBlank job.now checkpoint) }
{
    laws::places_are_in_order();
    let edges = job.edges();
    let sources = job.sources.as_slice().len();
    let senders = tasks_before(job, edges);
    let tasks = tasks_before(job, edges + 1);
    let channels = channels_before(job, edges);
    let text = Bytes::of(alloc, job.text.as_slice())?;
    let offsets = copies(alloc, 0, sources)?;
    let ended = copies(alloc, false, sources)?;
    let emitted = copies(alloc, 0, senders)?;
    let tables = no_tables(alloc, tasks - senders)?;
    let takes = no_takes(alloc, tasks - sources)?;
    let saved_in = no_pieces(alloc, channels)?;
    let saved_out = no_pieces(alloc, channels)?;
    Ok(Image {
        number: checkpoint.number,
        final_one: checkpoint.final_one,
        text,
        offsets,
        ended,
        emitted,
        tables,
        takes,
        saved_in,
        saved_out,
    })
}
