// Lines of an image.
ghost use Rattle.std.specs.Option.{option_map_or};
ghost use Rattle.std.specs.FinMap.{entries};
ghost use Rattle.flow_defs.specs.Tables.{Values};
ghost use Rattle.std.specs.Prelude.{◌≡◌, ℕ, suc, false, slice_get, unwrap_or, ◌+◌, ◌<◌, ◌≤◌, ◌++◌, true, length, IfOk, OnOk};
ghost use Rattle.flow_defs.specs.Jobs.{IsJob, last_edge, tasks, is_channel};
ghost use Rattle.plain_machine.specs.Worth.{concat_below};
ghost use Rattle.plain_machine.specs.Images.{items_at, takes_of};
ghost use Rattle.image_lines.specs.Shown.{named, answer, head_lines, source_line, task_line, table_line, count_of, take_line, channel_line, channel_lines, shown};

use collector::{place_of, task_place};
use flow_defs::{Bytes, ChannelId, Image, Job, ListOf, TakeRun, TaskId};
use itoa::Buffer;
use std::alloc::{AllocError, Global};

/// What is shown of an image of this job. The cost is in proportion to the tasks, channels and runs.
#[tactic(auto, unfolding(crate::specs::Shown::shown))]
pub fn image_lines(alloc: Global, job: &Job, image: &Image) -> Result<Bytes, AllocError>
    requires { IsJob job.now }
    ensures { IfOk result (λ text. text.items ≡ shown job.now image.now) }
{
    let mut text = Bytes::new(alloc);
    add_head(&mut text, image)?;
    add_sources(&mut text, job, image)?;
    add_tasks(&mut text, job, image)?;
    add_tables(&mut text, job, image)?;
    add_takes(&mut text, job, image)?;
    add_channels(&mut text, job, image)?;
    Ok(text)
}

// Adds a word and a number.
fn add_named(text: &mut Bytes, word: &str, number: u64) -> Result<(), AllocError>
    ensures { OnOk result (text.new.items ≡ text.old.items ++ named word.now number) }
{
    text.extend(word.as_bytes())?;
    text.extend(Buffer::new().format(number).as_bytes())
}

fn add_answer(text: &mut Bytes, yes: bool) -> Result<(), AllocError>
    ensures { OnOk result (text.new.items ≡ text.old.items ++ answer yes) }
{
    text.extend(if yes {
        b"yes".as_slice()
    } else {
        b"no".as_slice()
    })
}

fn add_head(text: &mut Bytes, image: &Image) -> Result<(), AllocError>
    ensures { OnOk result (text.new.items ≡ text.old.items ++ head_lines image.now) }
{
    add_named(text, "image ", image.number)?;
    text.extend(b"\nlast ")?;
    add_answer(text, image.final_one)?;
    text.push(b'\n')
}

fn add_source(text: &mut Bytes, image: &Image, a: usize) -> Result<(), AllocError>
    ensures { OnOk result (text.new.items ≡ text.old.items ++ source_line image.now a) }
{
    let offset = image.offsets.as_slice().get(a).copied().unwrap_or(0);
    add_named(text, "source ", a as u64)?;
    add_named(text, " offset ", offset)?;
    text.extend(b" ended ")?;
    add_answer(text, is_ended(image, a))?;
    text.push(b'\n')
}

// Whether a source is at its end.
fn is_ended(image: &Image, a: usize) -> bool
    ensures { result ≡ unwrap_or (slice_get image.now.ended.items a) false }
{
    match image.ended.as_slice().get(a) {
        Some(ended) => *ended,
        None => false,
    }
}

fn add_sources(text: &mut Bytes, job: &Job, image: &Image) -> Result<(), AllocError>
    ensures { OnOk result (text.new.items ≡ text.old.items ++ concat_below (tasks job.now 0) (source_line image.now)) }
{
    for a in 0..job.sources.as_slice().len() {
        add_source(text, image, a)?;
    }
    Ok(())
}

fn add_task(
    text: &mut Bytes,
    job: &Job,
    image: &Image,
    stage: u32,
    index: u32,
) -> Result<(), AllocError>
    requires job { IsJob job.now }
    requires task { (stage ≤ last_edge job.now) × (index < tasks job.now stage) }
    ensures { OnOk result (text.new.items ≡ text.old.items ++ task_line job.now image.now stage index) }
{
    let place = task_place(job, TaskId { stage, index });
    let emitted = image.emitted.as_slice().get(place).copied().unwrap_or(0);
    add_named(text, "task ", stage as u64)?;
    add_named(text, " ", index as u64)?;
    add_named(text, " emitted ", emitted)?;
    text.push(b'\n')
}

// Adds the lines of the tasks of a stage.
fn add_stage(text: &mut Bytes, job: &Job, image: &Image, stage: u32) -> Result<(), AllocError>
    requires job { IsJob job.now }
    requires stage { stage ≤ last_edge job.now }
    ensures { OnOk result (text.new.items ≡ text.old.items ++ concat_below (tasks job.now stage) (task_line job.now image.now stage)) }
{
    for index in 0..job.tasks(stage as usize) {
        add_task(text, job, image, stage, index)?;
    }
    Ok(())
}

fn add_tasks(text: &mut Bytes, job: &Job, image: &Image) -> Result<(), AllocError>
    requires { IsJob job.now }
    ensures { OnOk result (text.new.items ≡ text.old.items ++ concat_below (suc (last_edge job.now)) (λ i. concat_below (tasks job.now i) (task_line job.now image.now i))) }
{
    for stage in 0..job.edges() as u32 {
        add_stage(text, job, image, stage)?;
    }
    Ok(())
}

fn add_table(text: &mut Bytes, image: &Image, b: u32) -> Result<(), AllocError>
    ensures { OnOk result (text.new.items ≡ text.old.items ++ table_line image.now b) }
{
    add_named(text, "table ", b as u64)?;
    add_named(text, " keys ", keys_of(image, b as usize) as u64)?;
    text.push(b'\n')
}

// How many keys a table has.
fn keys_of(image: &Image, b: usize) -> usize
    ensures { result ≡ option_map_or (λ (table : Values). length (entries table)) (slice_get image.now.tables.items b) 0 }
{
    match image.tables.as_slice().get(b) {
        Some(table) => table.rows().len(),
        None => 0,
    }
}

fn add_tables(text: &mut Bytes, job: &Job, image: &Image) -> Result<(), AllocError>
    ensures { OnOk result (text.new.items ≡ text.old.items ++ concat_below (tasks job.now (suc (last_edge job.now))) (table_line image.now)) }
{
    for b in 0..job.agg_tasks {
        add_table(text, image, b)?;
    }
    Ok(())
}

// How many records runs take, modulo 2^64.
fn count_of(runs: &[TakeRun]) -> u64
    ensures { result ≡ count_of runs.now }
{
    let mut count: u64 = 0;
    for run in runs {
        count = count.wrapping_add(run.count);
    }
    count
}

fn add_take(text: &mut Bytes, job: &Job, image: &Image, edge: u32, b: u32) -> Result<(), AllocError>
    requires job { IsJob job.now }
    requires task { (edge ≤ last_edge job.now) × (b < tasks job.now (suc edge)) }
    ensures { OnOk result (text.new.items ≡ text.old.items ++ take_line job.now image.now edge b) }
{
    let runs = runs_at(job, image, edge, b);
    add_named(text, "take ", edge as u64 + 1)?;
    add_named(text, " ", b as u64)?;
    add_named(text, " runs ", runs.len() as u64)?;
    add_named(text, " records ", count_of(runs))?;
    text.push(b'\n')
}

// What task b behind an edge took. All tasks but the sources have a place.
fn runs_at<'a>(job: &Job, image: &'a Image, edge: u32, b: u32) -> &'a [TakeRun]
    requires job { IsJob job.now }
    requires task { (edge ≤ last_edge job.now) × (b < tasks job.now (suc edge)) }
    ensures { result.now ≡ takes_of job.now image.now (suc edge) b }
{
    let task = TaskId {
        stage: edge + 1,
        index: b,
    };
    let place = task_place(job, task) - job.sources.as_slice().len();
    runs_in(image.takes.as_slice(), place)
}

// The runs at a place, where there is one.
fn runs_in(takes: &[ListOf<TakeRun>], place: usize) -> &[TakeRun]
    ensures { result.now ≡ items_at takes.now place }
{
    match takes.get(place) {
        Some(runs) => runs.as_slice(),
        None => &[],
    }
}

// Adds the lines of the tasks behind an edge.
fn add_takers(text: &mut Bytes, job: &Job, image: &Image, edge: u32) -> Result<(), AllocError>
    requires job { IsJob job.now }
    requires edge { edge ≤ last_edge job.now }
    ensures { OnOk result (text.new.items ≡ text.old.items ++ concat_below (tasks job.now (suc edge)) (take_line job.now image.now edge)) }
{
    for b in 0..job.tasks(edge as usize + 1) {
        add_take(text, job, image, edge, b)?;
    }
    Ok(())
}

fn add_takes(text: &mut Bytes, job: &Job, image: &Image) -> Result<(), AllocError>
    requires { IsJob job.now }
    ensures { OnOk result (text.new.items ≡ text.old.items ++ concat_below (suc (last_edge job.now)) (λ e. concat_below (tasks job.now (suc e)) (take_line job.now image.now e))) }
{
    for edge in 0..job.edges() as u32 {
        add_takers(text, job, image, edge)?;
    }
    Ok(())
}

// How many bytes a piece has that may be missing.
fn piece_length(pieces: &[Bytes], place: usize) -> usize
    ensures { result ≡ length (items_at pieces.now place) }
{
    match pieces.get(place) {
        Some(piece) => piece.as_slice().len(),
        None => 0,
    }
}

fn add_channel(
    text: &mut Bytes,
    job: &Job,
    image: &Image,
    channel: ChannelId,
) -> Result<(), AllocError>
    requires job { IsJob job.now }
    requires channel { is_channel job.now channel.edge channel.from channel.to ≡ true }
    ensures { OnOk result (text.new.items ≡ text.old.items ++ channel_line job.now image.now channel.edge channel.from channel.to) }
{
    let place = place_of(job, channel);
    add_named(text, "channel ", channel.edge as u64)?;
    add_named(text, " ", channel.from as u64)?;
    add_named(text, " ", channel.to as u64)?;
    let came_in = piece_length(image.saved_in.as_slice(), place);
    add_named(text, " in ", came_in as u64)?;
    let overtaken = piece_length(image.saved_out.as_slice(), place);
    add_named(text, " out ", overtaken as u64)?;
    text.push(b'\n')
}

// Adds the lines of the channels from a task.
fn add_channels_from(
    text: &mut Bytes,
    job: &Job,
    image: &Image,
    edge: u32,
    from: u32,
) -> Result<(), AllocError>
    requires job { IsJob job.now }
    requires task { (edge ≤ last_edge job.now) × (from < tasks job.now edge) }
    ensures { OnOk result (text.new.items ≡ text.old.items ++ channel_lines job.now image.now edge from) }
{
    for to in 0..job.tasks(edge as usize + 1) {
        if job.joins(edge as usize, from, to) {
            add_channel(text, job, image, ChannelId { edge, from, to })?;
        }
    }
    Ok(())
}

// Adds the lines of the channels of an edge.
fn add_edge(text: &mut Bytes, job: &Job, image: &Image, edge: u32) -> Result<(), AllocError>
    requires job { IsJob job.now }
    requires edge { edge ≤ last_edge job.now }
    ensures { OnOk result (text.new.items ≡ text.old.items ++ concat_below (tasks job.now edge) (channel_lines job.now image.now edge)) }
{
    for from in 0..job.tasks(edge as usize) {
        add_channels_from(text, job, image, edge, from)?;
    }
    Ok(())
}

fn add_channels(text: &mut Bytes, job: &Job, image: &Image) -> Result<(), AllocError>
    requires { IsJob job.now }
    ensures { OnOk result (text.new.items ≡ text.old.items ++ concat_below (suc (last_edge job.now)) (λ e. concat_below (tasks job.now e) (channel_lines job.now image.now e))) }
{
    for edge in 0..job.edges() as u32 {
        add_edge(text, job, image, edge)?;
    }
    Ok(())
}
