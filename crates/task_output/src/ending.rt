// How a task ends.
ghost use Rattle.std.specs.Prelude.{◌≡◌};
ghost use Rattle.turn_cell.specs.Passes.{IsPassOf};
ghost use Rattle.task_output.specs.Ending.{ArePassesBy, EndsAs, ToldAtEnd};

use crate::TaskOutput;
use crate::acks::Acks;
use crate::world::{TaskEnd, WorldPasses};
use flow_defs::{Cause, ListOf, TakeRun};
use outside::{StopState, look_for_stop, tell_cause};
use record_writer::PartitionPasses;
use std::sync::Wait;
use turn_cell::{Pass, TurnCell};

/// Ends a task that sends: its writer, and then the task, as `end_task` does.
pub fn end_sender<'p, G, R: Wait>(
    rt: &R,
    stop: &TurnCell<StopState>,
    gate: G,
    output: TaskOutput<'_, 'p>,
    acks: Acks<'_>,
    takes: ListOf<TakeRun>,
    cause: Cause,
) -> TaskEnd<G, PartitionPasses<'p>>
    requires { output.writer.stop ≡ stop.now }
    ensures gate { result.gate ≡ gate }
    ensures partition { ArePassesBy output.entry.writer result.passes.partition }
    ensures passes { (result.passes.snapshots ≡ acks.entry.pass) × (result.passes.last_image ≡ acks.entry.last_pass) }
    ensures acks { result.acks ≡ acks.entry.sent }
    ensures takes { result.takes ≡ takes }
    ensures cause { EndsAs cause result.cause }
    ensures told { ToldAtEnd stop.now cause result.cause output.entry.writer.stop_pass result.passes.stop }
{
    let (partition, stop_pass) = output.into_passes(rt);
    end_task(rt, stop, gate, partition, acks, stop_pass, takes, cause)
}

/// Ends a task: tells the other workers of a fault, and hands the task's passes back with the cause with which
/// it ends. One that did its work was stopped where another worker had met a fault before.
pub fn end_task<G, P, R: Wait>(
    rt: &R,
    stop: &TurnCell<StopState>,
    gate: G,
    partition: P,
    acks: Acks<'_>,
    stop_pass: Pass<StopState>,
    takes: ListOf<TakeRun>,
    cause: Cause,
) -> TaskEnd<G, P>
    requires { IsPassOf stop.now stop_pass }
    ensures gate { result.gate ≡ gate }
    ensures partition { result.passes.partition ≡ partition }
    ensures passes { (result.passes.snapshots ≡ acks.entry.pass) × (result.passes.last_image ≡ acks.entry.last_pass) }
    ensures acks { result.acks ≡ acks.entry.sent }
    ensures takes { result.takes ≡ takes }
    ensures cause { EndsAs cause result.cause }
    ensures told { ToldAtEnd stop.now cause result.cause stop_pass result.passes.stop }
{
    let Acks {
        snapshots: _,
        pass,
        last_image: _,
        last_pass,
        base: _,
        sent,
    } = acks;
    let mut stop_pass = stop_pass;
    let cause = tell_end(rt, stop, &mut stop_pass, cause);
    let passes = WorldPasses {
        partition,
        snapshots: pass,
        last_image: last_pass,
        stop: stop_pass,
    };
    TaskEnd {
        gate,
        passes,
        takes,
        acks: sent,
        cause,
    }
}

// Tells the other workers of a fault, and answers the cause with which the task ends.
fn tell_end<R: Wait>(
    rt: &R,
    stop: &TurnCell<StopState>,
    pass: &mut Pass<StopState>,
    cause: Cause,
) -> Cause
    requires { IsPassOf stop.now pass.old }
    ensures cause { EndsAs cause result }
    ensures told { ToldAtEnd stop.now cause result pass.old pass.new }
{
    let told = match cause {
        Cause::Done => match look_for_stop(rt, stop, pass) {
            Some(_) => Cause::Stopped,
            None => Cause::Done,
        },
        _ => cause,
    };
    tell_cause(rt, stop, pass, told);
    told
}
