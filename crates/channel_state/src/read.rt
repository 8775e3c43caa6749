// Reads images.
ghost use Rattle.std.specs.Prelude.{◌≡◌, ◌≤◌, ◌<◌, ◌↔◌, ◌++◌, ℕ, List, suc, length, flat_map, Some, None, Err, IfOk, OnOk, ⊤};
ghost use Rattle.std.specs.Int.{w64, to_be_bytes};
ghost use Rattle.std.specs.FinMap.{entries};
ghost use Rattle.flow_defs.specs.declared.image.Image.{Image};
ghost use Rattle.flow_defs.specs.Jobs.{IsJob, last_edge, tasks};
ghost use Rattle.job_text.specs.Shapes.{job_of};
ghost use Rattle.plain_machine.specs.Images.{HasShortKeys};
ghost use Rattle.plain_machine.specs.Spelling.{row_part, spelling, CanSpell};
ghost use Rattle.channel_state.specs.Contents.{FitsItsText, HasRange};
ghost use Rattle.channel_state.specs.ImageFaults.{image_fault};
ghost use Rattle.channel_state.specs.Building.{IsBytes, TakesText, IsRead, IsTable, table_part, AreRows, IsTableRead, AreSources, AreTakes, AreRunsRead, AreRunsSoFar, AreSaved, IsSpelledBy};

use crate::ImageFault;
use crate::check::check;
use crate::cursor::{Cursor, Fault};
use crate::places::{channels, sending_tasks};
use flow_defs::{Bytes, Image, ListOf, Table, TakeRun};
use job_text::{JobShape, read_shape};
use std::alloc::{AllocError, Global};

/// Reads the image that these bytes spell.
///
/// The bytes are checked before memory is taken, so a fault is told however little memory there is. The cost
/// is in proportion to the bytes, as the memory is, whatever numbers stand in them.
pub fn read_image(alloc: Global, bytes: &[u8]) -> Result<Image, ImageFault>
    ensures can { IfOk result CanSpell }
    ensures fits { IfOk result FitsItsText }
    ensures spelled { IfOk result (λ image. spelling image ≡ bytes.now) }
    ensures not_image { (place : ℕ) → (result ≡ Err (ImageFault.NotImage place)) ↔ (image_fault bytes.now ≡ Some place) }

    // No image is refused.
    ensures accepted { (image : Image) → CanSpell image → HasRange image → FitsItsText image → image_fault (spelling image) ≡ None }
{
    if let Err(fault) = check(bytes) {
        let place = bytes.len().saturating_sub(fault.left) as u64;
        return Err(ImageFault::NotImage { place });
    }
    match build(alloc, bytes) {
        Ok(image) => Ok(image),
        Err(_) => Err(ImageFault::Memory),
    }
}

// Why an image was not built. Once its bytes are checked, no fault is left.
#[derive(Debug, Drop)]
enum Stop {
    Fault,
    Memory,
}

impl From<Fault> for Stop {
    fn from(_: Fault) -> Self {
        Stop::Fault
    }
}

impl From<AllocError> for Stop {
    fn from(_: AllocError) -> Self {
        Stop::Memory
    }
}

// Builds the image.
fn build(alloc: Global, bytes: &[u8]) -> Result<Image, Stop>
    ensures { IfOk result (IsSpelledBy bytes.now) }
{
    let mut cursor = Cursor { rest: bytes };
    cursor.mark(b"FLWI")?;
    cursor.version()?;
    let number = cursor.some()?;
    let final_one = cursor.flag()?;
    let text = cursor.text()?;
    let Ok(shape) = read_shape(text) else {
        return Err(Stop::Fault);
    };
    let sources = read_sources(alloc, &mut cursor, shape.tasks(0), final_one)?;
    let emitted = read_counts(alloc, &mut cursor, sending_tasks(&shape))?;
    let tables = read_tables(alloc, &mut cursor, shape.tasks(shape.last_edge() + 1))?;
    let takes = read_takes(alloc, &mut cursor, &shape)?;
    let saved = read_saved(alloc, &mut cursor, channels(&shape), final_one)?;
    cursor.mark(b"IWLF")?;
    cursor.end()?;
    let copied = Bytes::of(alloc, text)?;
    Ok(Image {
        number,
        final_one,
        text: copied,
        offsets: sources.offsets,
        ended: sources.ended,
        emitted,
        tables,
        takes,
        saved_in: saved.saved_in,
        saved_out: saved.saved_out,
    })
}

// The sources of an image.
#[derive(Drop)]
struct Sources {
    offsets: ListOf<u64>,
    ended: ListOf<bool>,
}

fn read_sources(
    alloc: Global,
    cursor: &mut Cursor,
    many: usize,
    last: bool,
) -> Result<Sources, Stop>
    ensures { IfOk result (λ s. IsBytes cursor.old.rest.now → AreSources many last cursor.old.rest.now cursor.new.rest.now s.offsets.items s.ended.items) }
{
    let mut offsets = ListOf::new(alloc);
    let mut ends = ListOf::new(alloc);
    for _i in 0..many {
        let offset = cursor.u64()?;
        let is_ended = cursor.ended(last)?;
        offsets.push(offset)?;
        ends.push(is_ended)?;
    }
    Ok(Sources {
        offsets,
        ended: ends,
    })
}

fn read_counts(alloc: Global, cursor: &mut Cursor, many: usize) -> Result<ListOf<u64>, Stop>
    ensures read { IfOk result (λ counts. IsBytes cursor.old.rest.now →
        TakesText cursor.old.rest.now (flat_map (to_be_bytes w64) counts.items) cursor.new.rest.now) }
    ensures count { IfOk result (λ counts. length counts.items ≡ many) }
{
    let mut counts = ListOf::new(alloc);
    for _i in 0..many {
        let count = cursor.u64()?;
        counts.push(count)?;
    }
    Ok(counts)
}

fn read_rows(alloc: Global, cursor: &mut Cursor, many: u32) -> Result<Table, Stop>
    ensures { IfOk result (λ table. IsBytes cursor.old.rest.now → AreRows many cursor.old.rest.now cursor.new.rest.now table) }
{
    let mut table = Table::new(alloc);
    let mut before = None;
    for _i in 0..many {
        let key = cursor.key(before)?;
        let value = cursor.u64()?;
        table.set(key, value)?;
        before = Some(key);
    }
    Ok(table)
}

fn read_table(alloc: Global, cursor: &mut Cursor) -> Result<Table, Stop>
    ensures { IfOk result (λ table. IsBytes cursor.old.rest.now → IsTableRead cursor.old.rest.now cursor.new.rest.now table) }
{
    let many = cursor.u32()?;
    read_rows(alloc, cursor, many)
}

fn read_tables(alloc: Global, cursor: &mut Cursor, many: usize) -> Result<ListOf<Table>, Stop>
    ensures read { IfOk result (λ tables. IsBytes cursor.old.rest.now → IsRead table_part IsTable cursor.old.rest.now cursor.new.rest.now tables.items) }
    ensures count { IfOk result (λ tables. length tables.items ≡ many) }
{
    let mut tables = ListOf::new(alloc);
    for _i in 0..many {
        let table = read_table(alloc, cursor)?;
        tables.push(table)?;
    }
    Ok(tables)
}

fn read_takes_of(
    alloc: Global,
    cursor: &mut Cursor,
    shape: &JobShape,
    edge: usize,
    to: usize,
) -> Result<ListOf<TakeRun>, Stop>
    requires job { IsJob (job_of shape.now) }
    requires edge { edge ≤ last_edge (job_of shape.now) }
    ensures { IfOk result (λ runs. IsBytes cursor.old.rest.now → AreRunsRead (job_of shape.now) edge to cursor.old.rest.now cursor.new.rest.now runs.items) }
{
    let many = cursor.u32()?;
    read_runs(alloc, cursor, shape, edge, to, many)
}

fn read_runs(
    alloc: Global,
    cursor: &mut Cursor,
    shape: &JobShape,
    edge: usize,
    to: usize,
    many: u32,
) -> Result<ListOf<TakeRun>, Stop>
    requires job { IsJob (job_of shape.now) }
    requires edge { edge ≤ last_edge (job_of shape.now) }
    ensures { IfOk result (λ runs. IsBytes cursor.old.rest.now →
        AreRunsSoFar (job_of shape.now) edge to many cursor.old.rest.now cursor.new.rest.now runs.items) }
{
    let mut runs = ListOf::new(alloc);
    let mut before = None;
    for _i in 0..many {
        let from = cursor.sender(shape, edge, to, before)?;
        let count = cursor.some()?;
        runs.push(TakeRun { from, count })?;
        before = Some(from);
    }
    Ok(runs)
}

// Reads the takes of the tasks behind an edge, behind those of the edges before.
fn read_takes_behind(
    alloc: Global,
    cursor: &mut Cursor,
    shape: &JobShape,
    edge: usize,
    takes: &mut ListOf<ListOf<TakeRun>>,
) -> Result<(), Stop>
    requires job { IsJob (job_of shape.now) }
    requires edge { edge ≤ last_edge (job_of shape.now) }
    ensures { OnOk result ((start : List ℕ) → AreTakes (job_of shape.now) edge 0 start cursor.old.rest.now takes.old.items →
        AreTakes (job_of shape.now) (suc edge) 0 start cursor.new.rest.now takes.new.items) }
{
    let many = shape.tasks(edge + 1);
    for to in 0..many {
        let runs = read_takes_of(alloc, cursor, shape, edge, to)?;
        takes.push(runs)?;
    }
    Ok(())
}

fn read_takes(
    alloc: Global,
    cursor: &mut Cursor,
    shape: &JobShape,
) -> Result<ListOf<ListOf<TakeRun>>, Stop>
    requires { IsJob (job_of shape.now) }
    ensures { IfOk result (λ takes. IsBytes cursor.old.rest.now → AreTakes (job_of shape.now) (suc (last_edge (job_of shape.now))) 0
        cursor.old.rest.now cursor.new.rest.now takes.items) }
{
    let mut takes = ListOf::new(alloc);
    let edges = shape.last_edge() + 1;
    for edge in 0..edges {
        read_takes_behind(alloc, cursor, shape, edge, &mut takes)?;
    }
    Ok(takes)
}

// The saved pieces of all channels.
#[derive(Drop)]
struct Pieces {
    saved_in: ListOf<Bytes>,
    saved_out: ListOf<Bytes>,
}

fn read_saved(alloc: Global, cursor: &mut Cursor, many: usize, last: bool) -> Result<Pieces, Stop>
    ensures { IfOk result (λ p. IsBytes cursor.old.rest.now → AreSaved many last cursor.old.rest.now cursor.new.rest.now p.saved_in.items p.saved_out.items) }
{
    let mut pieces_in = ListOf::new(alloc);
    let mut pieces_out = ListOf::new(alloc);
    for _i in 0..many {
        let first = cursor.saved_in(last)?;
        let second = cursor.saved_out(last, first)?;
        let incoming = Bytes::of(alloc, first)?;
        let overtaken = Bytes::of(alloc, second)?;
        pieces_in.push(incoming)?;
        pieces_out.push(overtaken)?;
    }
    Ok(Pieces {
        saved_in: pieces_in,
        saved_out: pieces_out,
    })
}
