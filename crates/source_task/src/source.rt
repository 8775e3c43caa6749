// The task of a source.
ghost use Rattle.std.specs.Prelude.{◌≡◌, [], length};
ghost use Rattle.turn_cell.specs.Passes.{IsPassOf, seen};
ghost use Rattle.record_writer.specs.Partitions.{IsPartitionOf, ArePassesOf};
ghost use Rattle.snapshot_channel.specs.Passes as channels;
ghost use Rattle.conn_parts.specs.Stopping.{ToldStop};
ghost use Rattle.task_output.specs.Acking.{IsLent, base_of};
ghost use Rattle.task_output.specs.Waiting.{HasWaited};
ghost use Rattle.source_task.specs.Sources.{SourceAccount};

use crate::SourceOutput;
use crate::reading::emit_input;
use flow_defs::{Cause, Job, ListOf};
use job_start::Start;
use outside::Source;
use record_writer::{Partition, PartitionPasses, RecordWriter};
use std::alloc::Global;
use std::sync::Wait;
use task_output::{TaskEnd, TaskOutput, World, end_sender, end_task};

/// Runs the task of the source of this index: emits the lines of its input behind those that were read before its
/// start, one after another. Behind so many lines as `every` says, from 1, it puts a barrier on each of its
/// channels and sends a snapshot; at its end it does so until the last checkpoint of the job, and then ends its
/// channels. With None it reads to its end, and its first checkpoint is the last.
///
/// As with Flink's default one checkpoint is open at a time: a barrier behind the first is put once the image of
/// the checkpoint before is stored. It reads 65,536 bytes at once, those of the lines that it leaves out too, and
/// makes no further read after one that answered 0 or failed, or by which it has read more than `SOURCE_MAX`
/// bytes. Where it was at its end at the start it makes no read.
pub fn run_source<'a, 'p, S: Source, R: Wait>(
    rt: &R,
    alloc: Global,
    job: &'a Job,
    input: &mut S,
    index: u32,
    start: &Start,
    every: Option<u64>,
    world: World<'a, Partition<'a, 'p>>,
) -> TaskEnd<(), PartitionPasses<'p>>
    requires partition { IsPartitionOf job.now 0 index world.partition }
    requires lent { IsLent job.now 0 index start.now every world }
    ensures partition { ArePassesOf job.now 0 world.entry.partition result.passes.partition }
    ensures snapshots { channels.IsPassOf world.entry.acks.snapshots.now result.passes.snapshots × (channels.task_of result.passes.snapshots ≡ channels.task_of world.entry.acks.pass) }
    ensures last_image { IsPassOf world.entry.acks.last_image.now result.passes.last_image }
    ensures waited { HasWaited (base_of start.now) (length (channels.sent_by result.passes.snapshots)) (seen result.passes.last_image) }
    ensures acks { result.acks ≡ length (channels.sent_by result.passes.snapshots) }
    ensures takes { result.takes.items ≡ [] }
    ensures account { SourceAccount job.now index world.entry.partition.size start.now every result.passes.partition.subpartitions.items (channels.sent_by result.passes.snapshots) (seen result.passes.last_image) (S.left input.old) (S.faults input.old) (S.faults input.new) result.cause }
    ensures stop { ToldStop world.entry.stop.now result.cause world.entry.stop_pass result.passes.stop }
{
    let World {
        partition,
        acks,
        stop,
        stop_pass,
    } = world;
    let emitted = start.emitted(job, 0, index);
    let offset = start.offset(index);
    let was_at_end = start.was_ended(index);
    match RecordWriter::new(alloc, job, 0, index, emitted, partition, stop, stop_pass) {
        Ok(writer) => {
            let mut source = SourceOutput {
                output: TaskOutput::new(writer),
                acks,
                index,
                every,
                skip: offset,
                offset,
                since: 0,
            };
            let cause = emit_input(rt, alloc, input, &mut source, was_at_end);
            let SourceOutput {
                output,
                acks,
                index: _,
                every: _,
                skip: _,
                offset: _,
                since: _,
            } = source;
            end_sender(rt, stop, (), output, acks, ListOf::new(alloc), cause)
        }
        Err(refused) => end_task(
            rt,
            stop,
            (),
            refused.passes,
            acks,
            refused.stop_pass,
            ListOf::new(alloc),
            Cause::Memory,
        ),
    }
}
