// The task of a stateless stage.
ghost use Rattle.std.specs.Prelude.{◌≡◌, ◌-◌, length};
ghost use Rattle.turn_cell.specs.Passes.{IsPassOf, seen};
ghost use Rattle.stage_fns.specs.Kinds.{kinds};
ghost use Rattle.job_plan.specs.Plans.{CanRun};
ghost use Rattle.record_writer.specs.Partitions.{ArePassesOf, IsPartitionOf};
ghost use Rattle.task_output.specs.Acking.{IsLent, base_of};
ghost use Rattle.task_output.specs.Waiting.{HasWaited};
ghost use Rattle.snapshot_channel.specs.Passes as channels;
ghost use Rattle.stage_task.specs.Stages.{StageAccount, IsStageTask};
ghost use Rattle.task_taking.specs.Endings.{ToldStop};

use crate::{StageOutput, TakerEnd, apply_all};
use flow_defs::{Cause, Job, ListOf, TaskId};
use input_gate::Gate;
use job_start::Start;
use record_writer::{Partition, PartitionPasses, RecordWriter};
use stage_fns::FnTable;
use std::alloc::Global;
use std::sync::Wait;
use task_output::{TaskEnd, TaskOutput, World, end_sender, end_task};
use task_taking::TaskTaking;

/// Runs this task of a stage, stages counting from 1: takes records from its gate and emits what the
/// stage's function gives for each. Where the barriers of a checkpoint have come on all channels, it puts its
/// own on each channel that it sends on, lets the gate's channels go on, and sends a snapshot. It ends its
/// channels once those of the gate have ended behind the last checkpoint.
///
/// It goes on from the start: the numbers of its snapshots, and how many records it has emitted, count on from
/// there. With None the first checkpoint is the last. With an interval it is the one behind an image in which all
/// sources are ended, be it that of the start; so before a snapshot the task waits until the image of the
/// checkpoint before is stored.
pub fn run_stage<'a, 'p, G: Gate, R: Wait>(
    rt: &R,
    alloc: Global,
    job: &'a Job,
    functions: &FnTable,
    gate: G,
    task: TaskId,
    start: &Start,
    every: Option<u64>,
    world: World<'a, Partition<'a, 'p>>,
) -> TaskEnd<G, PartitionPasses<'p>>
    requires task { IsStageTask job.now task (G.account gate) }
    requires functions { CanRun (kinds functions.now) job.now }
    requires partition { IsPartitionOf job.now task.stage task.index world.partition }
    requires lent { IsLent job.now task.stage task.index start.now every world }
    ensures gate { (G.ends result.gate ≡ G.ends gate) × ((G.account result.gate).channels ≡ (G.account gate).channels) }
    ensures partition { ArePassesOf job.now task.stage world.entry.partition result.passes.partition }
    ensures snapshots { channels.IsPassOf world.entry.acks.snapshots.now result.passes.snapshots × (channels.task_of result.passes.snapshots ≡ channels.task_of world.entry.acks.pass) }
    ensures last_image { IsPassOf world.entry.acks.last_image.now result.passes.last_image }
    ensures waited { HasWaited (base_of start.now) (length (channels.sent_by result.passes.snapshots)) (seen result.passes.last_image) }
    ensures acks { result.acks ≡ length (channels.sent_by result.passes.snapshots) }
    ensures account { StageAccount job.now (task.stage - 1) task.index world.entry.partition.size start.now every (G.account result.gate) (G.shows result.gate) result.passes.partition.subpartitions.items (channels.sent_by result.passes.snapshots) (seen result.passes.last_image) result.takes.items result.cause }
    ensures stop { ToldStop world.entry.stop.now (G.saw_stop result.gate) result.cause world.entry.stop_pass result.passes.stop }
{
    let World {
        partition,
        acks,
        stop,
        stop_pass,
    } = world;
    let TaskId { stage, index } = task;
    let edge = stage - 1;
    let mut gate = gate;
    let Ok(taking) = TaskTaking::new(alloc, job, edge, index) else {
        let none = ListOf::new(alloc);
        return end_task(
            rt,
            stop,
            gate,
            partition.passes,
            acks,
            stop_pass,
            none,
            Cause::Memory,
        );
    };
    let emitted = start.emitted(job, stage, index);
    match RecordWriter::new(
        alloc, job, stage, index, emitted, partition, stop, stop_pass,
    ) {
        Ok(writer) => {
            let mut out = StageOutput {
                output: TaskOutput::new(writer),
                acks,
                job,
                edge,
                index,
                every,
            };
            let end = apply_all(rt, alloc, functions, &mut gate, taking, &mut out);
            let StageOutput { output, acks, .. } = out;
            let TakerEnd { takes, cause } = end;
            end_sender(rt, stop, gate, output, acks, takes, cause)
        }
        Err(refused) => {
            let takes = taking.into_runs();
            end_task(
                rt,
                stop,
                gate,
                refused.passes,
                acks,
                refused.stop_pass,
                takes,
                Cause::Memory,
            )
        }
    }
}
