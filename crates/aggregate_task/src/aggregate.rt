// The task of the aggregate.
ghost use Rattle.std.specs.Prelude.{◌≡◌, ◌<◌, [], suc, length};
ghost use Rattle.turn_cell.specs.Passes.{IsPassOf, seen};
ghost use Rattle.flow_defs.specs.Jobs.{IsJob, last_edge, tasks};
ghost use Rattle.stage_fns.specs.Kinds.{kinds};
ghost use Rattle.job_plan.specs.Plans.{CanRun};
ghost use Rattle.job_start.specs.Starts.{IsStartFor};
ghost use Rattle.record_writer.specs.Writers.{ways_into};
ghost use Rattle.gate_account.specs.Accounts.{IsNew};
ghost use Rattle.snapshot_channel.specs.Passes as channels;
ghost use Rattle.task_output.specs.Acking.{IsLent};
ghost use Rattle.task_taking.specs.Endings.{ToldStop};
ghost use Rattle.aggregate_task.specs.Aggregates.{AggregateAccount};

use crate::checkpoint::{AggregateOutput, Ending};
use crate::counting::take_all;
use flow_defs::Job;
use input_gate::Gate;
use job_start::Start;
use stage_fns::FnTable;
use std::alloc::Global;
use std::sync::Wait;
use task_output::{StopLook, TaskEnd, World, end_task};

/// Runs the aggregate's task of this index: counts the records of its gate, from its table of the start on.
/// Behind the barriers of a checkpoint it sends a snapshot with a copy of its table, and then goes on; behind
/// the last checkpoint of the job it is done once all channels of the gate have ended. It sends nothing else.
///
/// `every` is how many lines a source reads between two barriers, from 1. With None the first checkpoint is
/// the last. Else it is the one behind an image in which all sources are ended. Before it acknowledges a
/// checkpoint, the task waits until the image of the one before is stored.
///
/// What it took is kept, up to the next snapshot, as runs of one sender after another. A snapshot costs what
/// copying the table costs, and so does beginning with the table of the start.
pub fn run_aggregate<'a, G: Gate, R: Wait>(
    rt: &R,
    alloc: Global,
    job: &'a Job,
    functions: &FnTable,
    gate: G,
    index: u32,
    start: &Start,
    every: Option<u64>,
    world: World<'a, ()>,
) -> TaskEnd<G, ()>
    requires is_job { IsJob job.now × CanRun (kinds functions.now) job.now }
    requires task { index < tasks job.now (suc (last_edge job.now)) }
    requires start { IsStartFor job.now start.now }
    requires gate { IsNew (λ c. []) (G.account gate) × ((G.account gate).channels ≡ ways_into job.now (last_edge job.now)) }
    requires lent { IsLent job.now (suc (last_edge job.now)) index start.now every world }
    ensures gate { (G.ends result.gate ≡ G.ends gate) × ((G.account result.gate).channels ≡ (G.account gate).channels) }
    ensures snapshots { channels.IsPassOf world.entry.acks.snapshots.now result.passes.snapshots × (channels.task_of result.passes.snapshots ≡ channels.task_of world.entry.acks.pass) }
    ensures last_image { IsPassOf world.entry.acks.last_image.now result.passes.last_image }
    ensures acks { result.acks ≡ length (channels.sent_by result.passes.snapshots) }
    ensures account { AggregateAccount job.now index start.now every (G.account result.gate) (G.shows result.gate) (channels.sent_by result.passes.snapshots) (seen result.passes.last_image) result.takes.items result.cause }
    ensures stop { ToldStop world.entry.stop.now (G.saw_stop result.gate) result.cause world.entry.stop_pass result.passes.stop }
{
    let World {
        acks,
        stop,
        stop_pass,
        ..
    } = world;
    let Some(f) = functions.agg(job.agg) else {
        unreachable!()
    };
    let look = StopLook::new(stop, stop_pass);
    let mut gate = gate;
    let mut out = AggregateOutput {
        job,
        index,
        every,
        acks,
        stop: look,
    };
    let Ending { cause, takes } = take_all(rt, alloc, &mut gate, f, start, &mut out);
    let AggregateOutput {
        acks,
        stop: look,
        ..
    } = out;
    let stop_pass = look.into_pass();
    end_task(rt, stop, gate, (), acks, stop_pass, takes, cause)
}
