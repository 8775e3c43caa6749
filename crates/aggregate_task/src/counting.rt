// Counts what an aggregate task takes.
ghost use Rattle.std.specs.Prelude.{◌≡◌, ◌≢◌, ◌⊎◌, ◌<◌, [], suc, unwrap_or, slice_get, IfOk};
ghost use Rattle.std.specs.FinMap.{empty};
ghost use Rattle.turn_cell.specs.Passes.{seen};
ghost use Rattle.flow_defs.specs.declared.cause.PeerFault.TheVariants.{Barrier};
ghost use Rattle.flow_defs.specs.Jobs.{last_edge, tasks};
ghost use Rattle.stage_fns.specs.Meets.{MeetsAgg};
ghost use Rattle.record_writer.specs.Writers.{ways_into};
ghost use Rattle.gate_account.specs.Accounts.{IsNew};
ghost use Rattle.snapshot_channel.specs.Passes.{sent_by};
ghost use Rattle.task_taking.specs.Takings.{HasTaken, IsInStep};
ghost use Rattle.aggregate_task.specs.Acknowledging.{IsAcking, IsSame, from_at, start_at};
ghost use Rattle.aggregate_task.specs.Aggregates.{HasAccount};

use crate::checkpoint::{AggregateOutput, Ending, take_checkpoint};
use flow_defs::{Cause, ListOf, PeerFault};
use input_gate::Gate;
use job_plan::Counts;
use job_start::Start;
use stage_fns::AggFn;
use std::alloc::{AllocError, Global};
use std::sync::Wait;
use task_taking::{Taken, TaskTaking};

/// Takes all that the gate gives, with the checkpoints between, and counts on from the task's table of the
/// start. Answers why it goes no further.
pub fn take_all<G: Gate, R: Wait>(
    rt: &R,
    alloc: Global,
    gate: &mut G,
    f: &AggFn,
    start: &Start,
    out: &mut AggregateOutput<'_>,
) -> Ending
    requires function { MeetsAgg out.old.job.now.agg (AggFn.pre f.now) (AggFn.post f.now) }
    requires own { IsAcking out.old × (sent_by out.old.acks.pass ≡ []) }
    requires start { start.now ≡ start_at out.old }
    requires task { out.old.index < tasks out.old.job.now (suc (last_edge out.old.job.now)) }
    requires gate { IsNew (λ c. []) (G.account gate.old) × ((G.account gate.old).channels ≡ ways_into out.old.job.now (last_edge out.old.job.now)) }
    ensures gate { (G.ends gate.new ≡ G.ends gate.old) × ((G.account gate.new).channels ≡ (G.account gate.old).channels) }
    ensures own { IsAcking out.new × IsSame out.old out.new }
    ensures account { HasAccount (G.account gate.new) (G.shows gate.new) out.new result }
    ensures stopped { result.cause ≡ Cause.Stopped → G.saw_stop gate.new ⊎ (seen out.new.stop.pass ≢ []) }
{
    let Ok(counts) = counts_of(alloc, start, out.index) else {
        return no_memory(alloc);
    };
    let edge = out.job.edges() as u32 - 1;
    match TaskTaking::new(alloc, out.job, edge, out.index) {
        Ok(taking) => count_all(rt, alloc, gate, f, taking, counts, out),
        Err(_) => no_memory(alloc),
    }
}

// What the task of this index has counted at the start.
fn counts_of(alloc: Global, start: &Start, index: u32) -> Result<Counts, AllocError>
    ensures { IfOk result (λ counts. counts ≡ unwrap_or (slice_get start.now.tables.items index) empty) }
{
    match start.tables.as_slice().get(index as usize) {
        Some(table) => Counts::of_table(alloc, table),
        None => Ok(Counts::new(alloc)),
    }
}

// Ends for want of memory before anything is taken.
fn no_memory(alloc: Global) -> Ending
    ensures { (result.cause ≡ Cause.Memory) × (result.takes.items ≡ []) }
{
    Ending {
        cause: Cause::Memory,
        takes: ListOf::new(alloc),
    }
}

// Counts on with each record that the gate gives, and acknowledges each checkpoint.
fn count_all<G: Gate, R: Wait>(
    rt: &R,
    alloc: Global,
    gate: &mut G,
    f: &AggFn,
    taking: TaskTaking,
    counts: Counts,
    out: &mut AggregateOutput<'_>,
) -> Ending
    requires function { MeetsAgg out.old.job.now.agg (AggFn.pre f.now) (AggFn.post f.now) }
    requires own { IsAcking out.old × (sent_by out.old.acks.pass ≡ []) }
    requires counts { counts ≡ (from_at out.old).table }
    requires new { HasTaken out.old.job.now (last_edge out.old.job.now) out.old.index (G.account gate.old) (G.shows gate.old) taking [] [] × IsInStep (G.account gate.old) taking }
    ensures gate { (G.ends gate.new ≡ G.ends gate.old) × ((G.account gate.new).channels ≡ (G.account gate.old).channels) }
    ensures own { IsAcking out.new × IsSame out.old out.new }
    ensures account { HasAccount (G.account gate.new) (G.shows gate.new) out.new result }
    ensures stopped { result.cause ≡ Cause.Stopped → G.saw_stop gate.new ⊎ (seen out.new.stop.pass ≢ []) }
{
    let mut taking = taking;
    let mut counts = counts;
    let mut last = false;
    for _item in rt.forever() {
        match taking.next(rt, gate) {
            Ok(Taken::Line(line)) => {
                if last {
                    return out_of_order(taking);
                }
                match counts.add(out.job.agg, f, line) {
                    Ok(()) => {}
                    Err(_) => return ending(Cause::Memory, taking),
                }
            }
            Ok(Taken::Checkpoint { .. }) => {
                if last {
                    return out_of_order(taking);
                }
                match take_checkpoint(rt, alloc, gate, &mut taking, &counts, out) {
                    Ok(is_last) => last = is_last,
                    Err(end) => return end,
                }
            }
            Ok(Taken::AllEnded) => {
                if last {
                    return ending(Cause::Done, taking);
                }
                return out_of_order(taking);
            }
            Err(cause) => return ending(cause, taking),
        }
    }
    unreachable!()
}

// Ends with what was taken behind the last snapshot.
fn ending(cause: Cause, taking: TaskTaking) -> Ending
    ensures { (result.cause ≡ cause) × (result.takes.items ≡ taking.runs) }
{
    Ending {
        cause,
        takes: taking.into_runs(),
    }
}

// The gate gave what does not come there.
fn out_of_order(taking: TaskTaking) -> Ending
    ensures { (result.cause ≡ Cause.Peer Barrier) × (result.takes.items ≡ taking.runs) }
{
    let fault = PeerFault::Barrier;
    ending(Cause::Peer { fault }, taking)
}
