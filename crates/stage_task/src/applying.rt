// Emits what a stage gives for the records that its task takes.
ghost use Rattle.std.specs.Prelude.{◌≡◌, ◌<◌, ◌⊎◌, ℕ, List, OnOk};
ghost use Rattle.flow_defs.specs.declared.job.Job.{Job};
ghost use Rattle.flow_defs.specs.Jobs.{last_edge};
ghost use Rattle.flow_defs.specs.Records.{IsShort};
ghost use Rattle.flow_defs.specs.Stages.{IsArgument, apply};
ghost use Rattle.stage_fns.specs.Kinds.{kinds};
ghost use Rattle.stage_fns.specs.Meets.{MeetsStage};
ghost use Rattle.job_plan.specs.Plans.{CanRun};
ghost use Rattle.record_writer.specs.Writers.{IsOpen, IsSame, HasSeenFault};
ghost use Rattle.task_taking.specs.Takings.{IsInStep};
ghost use Rattle.task_output.specs.Outputs.{HasSent};
ghost use Rattle.stage_task.specs.Applying.{IsSameStage, HasOwnPasses, IsStageUnderWay, IsBehindLast, EmittedAll, IsEndOf};

use crate::checkpoints::acknowledge;
use crate::{StageOutput, TakerEnd};
use flow_defs::{Bytes, Cause, ListOf, PeerFault, Stage};
use input_gate::Gate;
use job_plan::apply_stage;
use plain_machine::laws::no_stage_lengthens;
use stage_fns::{FnTable, StageFn};
use std::alloc::Global;
use std::sync::Wait;
use task_output::TaskOutput;
use task_output::laws::what_was_sent_was_begun;
use task_taking::{Taken, TaskTaking};

// What a task ends with where its channels end before the last checkpoint, or give more behind it.
const WRONG_BARRIER: Cause = Cause::Peer {
    fault: PeerFault::Barrier,
};

/// Emits what the stage gives for each record that is taken, and acknowledges each checkpoint, up to the last
/// one. Behind that it ends its channels.
pub fn apply_all<G: Gate, R: Wait>(
    rt: &R,
    alloc: Global,
    functions: &FnTable,
    gate: &mut G,
    taking: TaskTaking,
    out: &mut StageOutput<'_, '_>,
) -> TakerEnd
    requires can_run { CanRun (kinds functions.now) out.old.job.now × (out.old.edge < last_edge out.old.job.now) }
    requires in_step { IsInStep (G.account gate.old) taking }
    requires under_way { IsStageUnderWay (G.account gate.old) (G.shows gate.old) taking out.old }
    requires own { HasOwnPasses out.old }
    ensures gate { (G.ends gate.new ≡ G.ends gate.old) × ((G.account gate.new).channels ≡ (G.account gate.old).channels) }
    ensures same { IsSameStage out.old out.new }
    ensures own { HasOwnPasses out.new }
    ensures ended { IsEndOf (G.account gate.new) (G.shows gate.new) out.new result }
    ensures stopped { result.cause ≡ Cause.Stopped → G.saw_stop gate.new ⊎ HasSeenFault out.new.output.writer }
{
    what_was_sent_was_begun();
    let Some(stage) = out.job.stages.as_slice().get(out.edge as usize) else {
        unreachable!()
    };
    let Some(f) = functions.stage(stage.kind) else {
        unreachable!()
    };
    let mut taking = taking;
    let mut given = ListOf::new(alloc);
    for _item in rt.forever() {
        match taking.next(rt, gate) {
            Ok(Taken::Line(line)) => {
                let line = line.as_slice();
                match apply_one(rt, alloc, stage, f, line, &mut given, &mut out.output) {
                    Ok(()) => {}
                    Err(cause) => return end_of(taking, cause),
                }
            }
            Ok(Taken::Checkpoint { k }) => {
                match out.output.mark(rt, k) {
                    Ok(()) => {}
                    Err(_) => return end_of(taking, Cause::Stopped),
                }
                match acknowledge(rt, alloc, gate, &mut taking, out) {
                    Ok(false) => {}
                    Ok(true) => return end_behind_last(rt, gate, taking, out),
                    Err(end) => return end,
                }
            }
            Ok(Taken::AllEnded) => return end_of(taking, WRONG_BARRIER),
            Err(cause) => return end_of(taking, cause),
        }
    }
    unreachable!()
}

// The task ends so, with the runs of what it took behind its last barrier.
fn end_of(taking: TaskTaking, cause: Cause) -> TakerEnd
    ensures { (result.takes.items ≡ taking.runs) × (result.cause ≡ cause) }
{
    TakerEnd {
        takes: taking.into_runs(),
        cause,
    }
}

// Ends the channels behind the last checkpoint, once those of the gate have ended.
fn end_behind_last<G: Gate, R: Wait>(
    rt: &R,
    gate: &mut G,
    taking: TaskTaking,
    out: &mut StageOutput<'_, '_>,
) -> TakerEnd
    requires in_step { IsInStep (G.account gate.old) taking }
    requires behind { IsBehindLast (G.account gate.old) (G.shows gate.old) taking out.old }
    ensures gate { (G.ends gate.new ≡ G.ends gate.old) × ((G.account gate.new).channels ≡ (G.account gate.old).channels) }
    ensures same { IsSameStage out.old out.new }
    ensures kept { out.new.acks ≡ out.old.acks }
    ensures ended { IsEndOf (G.account gate.new) (G.shows gate.new) out.new result }
    ensures stopped { result.cause ≡ Cause.Stopped → G.saw_stop gate.new ⊎ HasSeenFault out.new.output.writer }
{
    what_was_sent_was_begun();
    let mut taking = taking;
    match taking.next(rt, gate) {
        Ok(Taken::AllEnded) => match out.output.finish(rt) {
            Ok(()) => end_of(taking, Cause::Done),
            Err(_) => end_of(taking, Cause::Stopped),
        },
        Ok(Taken::Line(_)) => end_of(taking, WRONG_BARRIER),
        Ok(Taken::Checkpoint { .. }) => end_of(taking, WRONG_BARRIER),
        Err(cause) => end_of(taking, cause),
    }
}

// Emits what the stage gives for a record. The list is used again for each.
fn apply_one<R: Wait>(
    rt: &R,
    alloc: Global,
    stage: &Stage,
    f: &StageFn,
    line: &[u8],
    given: &mut ListOf<Bytes>,
    output: &mut TaskOutput<'_, '_>,
) -> Result<(), Cause>
    requires argument { IsArgument stage.now.kind stage.now.arg.items }
    requires function { MeetsStage stage.now.kind (StageFn.pre f.now) (StageFn.post f.now) }
    requires short { IsShort line.now }
    requires is_open { IsOpen output.old.writer }
    ensures same { IsSame output.old.writer output.new.writer }
    ensures is_open { OnOk result (IsOpen output.new.writer) }
    ensures emitted { (from : ℕ) (job : Job) (e a size : ℕ) (groups : List (List (List ℕ))) (records : List (List ℕ)) → HasSent from job e a size output.old groups records →
        EmittedAll from job e a size output.new groups records (apply stage.now line.now) result }
{
    what_was_sent_was_begun();
    given.clear();
    match apply_stage(alloc, stage, f, line, given) {
        Ok(()) => {}
        Err(_) => return Err(Cause::Memory),
    }
    no_stage_lengthens();
    match output.emit_all(rt, given.as_slice()) {
        Ok(()) => {}
        Err(_) => return Err(Cause::Stopped),
    }
    Ok(())
}
