// Checks that bytes are an image, from the first field on. Nothing here takes memory.
ghost use Rattle.std.specs.Prelude.{◌≡◌, ◌≤◌, ◌<◌, suc, None, [], length};
ghost use Rattle.flow_defs.specs.Jobs.{IsJob, last_edge, tasks};
ghost use Rattle.job_text.specs.Shapes.{job_of};
ghost use Rattle.channel_state.specs.Reading.{parts};
ghost use Rattle.channel_state.specs.ImageFaults.{source, emitted, rows, table, runs, takes, channel, body, image};
ghost use Rattle.channel_state.specs.Outcomes.{Passes, part_of};

use crate::cursor::{Cursor, Fault};
use crate::places::{channels, sending_tasks};
use job_text::{JobShape, read_shape};

#[tactic(auto, unfolding(crate::specs::ImageFaults::image))]
pub(crate) fn check(bytes: &[u8]) -> Result<(), Fault>
    ensures { Passes [] result (image bytes.now) }
{
    let mut cursor = Cursor { rest: bytes };
    cursor.mark(b"FLWI")?;
    cursor.version()?;
    cursor.some()?;
    let last = cursor.flag()?;
    let left = cursor.rest.len();
    let text = cursor.text()?;
    match read_shape(text) {
        Ok(shape) => check_body(&mut cursor, &shape, last),
        Err(_) => Err(Fault { left }),
    }
}

#[tactic(auto, unfolding(crate::specs::ImageFaults::body))]
fn check_body(cursor: &mut Cursor, shape: &JobShape, last: bool) -> Result<(), Fault>
    requires { IsJob (job_of shape.now) }
    ensures { Passes [] result (body (job_of shape.now) last cursor.old.rest.now) }
{
    check_parts(cursor, shape.tasks(0), Part::Source { last })?;
    check_parts(cursor, sending_tasks(shape), Part::Count)?;
    check_parts(cursor, shape.tasks(shape.last_edge() + 1), Part::Table)?;
    check_takes(cursor, shape)?;
    check_parts(cursor, channels(shape), Part::Channel { last })?;
    cursor.mark(b"IWLF")?;
    cursor.end()
}

// What an image has one of for each source, task or channel.
#[derive(Clone, Copy)]
enum Part {
    Source { last: bool },
    Count,
    Table,
    Channel { last: bool },
}

fn check_parts(cursor: &mut Cursor, many: usize, part: Part) -> Result<(), Fault>
    ensures { Passes cursor.new.rest.now result (parts many (λ i. part_of part) cursor.old.rest.now) }
{
    for _i in 0..many {
        check_part(cursor, part)?;
    }
    Ok(())
}

fn check_part(cursor: &mut Cursor, part: Part) -> Result<(), Fault>
    ensures { Passes cursor.new.rest.now result (part_of part cursor.old.rest.now) }
{
    match part {
        Part::Source { last } => check_source(cursor, last),
        Part::Count => check_count(cursor),
        Part::Table => check_table(cursor),
        Part::Channel { last } => check_channel(cursor, last),
    }
}

#[tactic(auto, unfolding(crate::specs::ImageFaults::source))]
fn check_source(cursor: &mut Cursor, last: bool) -> Result<(), Fault>
    ensures { Passes cursor.new.rest.now result (source last cursor.old.rest.now) }
{
    cursor.u64()?;
    cursor.ended(last)?;
    Ok(())
}

#[tactic(auto, unfolding(crate::specs::ImageFaults::emitted))]
fn check_count(cursor: &mut Cursor) -> Result<(), Fault>
    ensures { Passes cursor.new.rest.now result (emitted cursor.old.rest.now) }
{
    cursor.u64()?;
    Ok(())
}

#[tactic(auto, unfolding(crate::specs::ImageFaults::table))]
fn check_table(cursor: &mut Cursor) -> Result<(), Fault>
    ensures { Passes cursor.new.rest.now result (table cursor.old.rest.now) }
{
    let many = cursor.u32()?;
    check_rows(cursor, many)
}

fn check_rows(cursor: &mut Cursor, many: u32) -> Result<(), Fault>
    ensures { Passes cursor.new.rest.now result (rows many None cursor.old.rest.now) }
{
    let mut before = None;
    for _i in 0..many {
        let key = cursor.key(before)?;
        cursor.u64()?;
        before = Some(key);
    }
    Ok(())
}

fn check_takes(cursor: &mut Cursor, shape: &JobShape) -> Result<(), Fault>
    requires { IsJob (job_of shape.now) }
    ensures { Passes cursor.new.rest.now result
        (parts (suc (last_edge (job_of shape.now))) (λ e. parts (tasks (job_of shape.now) (suc e)) (takes (job_of shape.now) e)) cursor.old.rest.now) }
{
    let edges = shape.last_edge() + 1;
    for edge in 0..edges {
        check_takes_behind(cursor, shape, edge)?;
    }
    Ok(())
}

fn check_takes_behind(cursor: &mut Cursor, shape: &JobShape, edge: usize) -> Result<(), Fault>
    requires job { IsJob (job_of shape.now) }
    requires edge { edge ≤ last_edge (job_of shape.now) }
    ensures { Passes cursor.new.rest.now result
        (parts (tasks (job_of shape.now) (suc edge)) (takes (job_of shape.now) edge) cursor.old.rest.now) }
{
    let many = shape.tasks(edge + 1);
    for to in 0..many {
        check_takes_of(cursor, shape, edge, to)?;
    }
    Ok(())
}

#[tactic(auto, unfolding(crate::specs::ImageFaults::takes))]
fn check_takes_of(
    cursor: &mut Cursor,
    shape: &JobShape,
    edge: usize,
    to: usize,
) -> Result<(), Fault>
    requires job { IsJob (job_of shape.now) }
    requires edge { edge ≤ last_edge (job_of shape.now) }
    ensures { Passes cursor.new.rest.now result (takes (job_of shape.now) edge to cursor.old.rest.now) }
{
    let many = cursor.u32()?;
    check_runs(cursor, shape, edge, to, many)
}

fn check_runs(
    cursor: &mut Cursor,
    shape: &JobShape,
    edge: usize,
    to: usize,
    many: u32,
) -> Result<(), Fault>
    requires job { IsJob (job_of shape.now) }
    requires edge { edge ≤ last_edge (job_of shape.now) }
    ensures { Passes cursor.new.rest.now result (runs (job_of shape.now) edge to many None cursor.old.rest.now) }
{
    let mut before = None;
    for _i in 0..many {
        let from = cursor.sender(shape, edge, to, before)?;
        cursor.some()?;
        before = Some(from);
    }
    Ok(())
}

#[tactic(auto, unfolding(crate::specs::ImageFaults::channel))]
fn check_channel(cursor: &mut Cursor, last: bool) -> Result<(), Fault>
    ensures { Passes cursor.new.rest.now result (channel last cursor.old.rest.now) }
{
    let saved_in = cursor.saved_in(last)?;
    cursor.saved_out(last, saved_in)?;
    Ok(())
}
