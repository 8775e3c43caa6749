// How a stage takes checkpoints.
ghost use Rattle.std.specs.Prelude.{◌≡◌, ◌^◌, ◌<◌, suc, IfOk, IfErr, OnOk};
ghost use Rattle.record_writer.specs.Writers.{HasSeenFault};
ghost use Rattle.task_taking.specs.Takings.{AllBlocked, IsInStep};
ghost use Rattle.stage_task.specs.Applying.{IsSameStage, HasOwnPasses, IsMarked, HasAcknowledged, IsEndOf};
ghost use Rattle.stage_task.specs.Snapshots.{IsSnapshotOf};

use flow_defs::{Cause, Job, ListOf, Snapshot, Table, TakeRun, TaskId};
use input_gate::Gate;
use plain_machine::laws::emits_in_parts;
use std::alloc::Global;
use std::sync::Wait;
use task_output::laws::{what_was_seen_stays, what_was_sent_was_begun};
use task_output::{Acks, TaskOutput};
use task_taking::TaskTaking;

/// What a stage emits by, and by what it acknowledges checkpoints.
#[derive(Drop)]
pub struct StageOutput<'a, 'p> {
    pub output: TaskOutput<'a, 'p>,
    pub acks: Acks<'a>,
    pub job: &'a Job,
    /// The edge from which its task takes.
    pub edge: u32,
    /// The index of its task.
    pub index: u32,
    /// How many lines a source reads between two barriers. None: there is one checkpoint.
    pub every: Option<u64>,
}

/// Why a task takes no more, and the runs of what it took behind the last snapshot that it sent.
#[derive(Drop)]
pub struct TakerEnd {
    pub takes: ListOf<TakeRun>,
    pub cause: Cause,
}

/// Acknowledges a checkpoint whose barriers have been put: resumes the channels of the gate, and sends the
/// snapshot. It waits until the image of the checkpoint before is stored. Whether this checkpoint is the last
/// is the answer.
///
/// A barrier counts from the beginning of the run, and a snapshot from the image on from which the run goes on.
/// Where no number of 64 bits is left, the task ends as it does for want of memory.
pub fn acknowledge<G: Gate, R: Wait>(
    rt: &R,
    alloc: Global,
    gate: &mut G,
    taking: &mut TaskTaking,
    out: &mut StageOutput<'_, '_>,
) -> Result<bool, TakerEnd>
    requires blocked { AllBlocked (G.account gate.old) taking.old }
    requires marked { IsMarked (G.account gate.old) (G.shows gate.old) taking.old out.old }
    requires own { HasOwnPasses out.old }
    ensures gate { (G.ends gate.new ≡ G.ends gate.old) × ((G.account gate.new).channels ≡ (G.account gate.old).channels) }
    ensures same { IsSameStage out.old out.new }
    ensures own { HasOwnPasses out.new }
    ensures in_step { OnOk result (IsInStep (G.account gate.new) taking.new) }
    ensures acknowledged { IfOk result (λ last. HasAcknowledged (G.account gate.new) (G.shows gate.new) taking.new out.new last) }
    ensures ended { IfErr result (λ end. IsEndOf (G.account gate.new) (G.shows gate.new) out.new end) }
    ensures stopped { IfErr result (λ end. end.cause ≡ Cause.Stopped → HasSeenFault out.new.output.writer) }
{
    what_was_sent_was_begun();
    what_was_seen_stays();
    emits_in_parts();
    let takes = taking.resume_all(rt, gate);
    let Some(number) = out.acks.next_number() else {
        return Err(TakerEnd {
            takes,
            cause: Cause::Memory,
        });
    };
    let last = match out.acks.learn_last(rt, &mut out.output, out.every, number) {
        Ok(last) => last,
        Err(_) => {
            return Err(TakerEnd {
                takes,
                cause: Cause::Stopped,
            });
        }
    };
    let snapshot = out.snapshot(alloc, number, takes);
    match out.acks.send(rt, &mut out.output, snapshot) {
        Ok(()) => Ok(last),
        Err(back) => {
            let Snapshot { takes, .. } = back;
            Err(TakerEnd {
                takes,
                cause: Cause::Stopped,
            })
        }
    }
}

impl<'a, 'p> StageOutput<'a, 'p> {
    // The snapshot for the checkpoint of this number, with the runs of what was taken since the one before. It
    // takes no memory.
    fn snapshot(&self, alloc: Global, number: u64, takes: ListOf<TakeRun>) -> Snapshot
        requires { suc self.now.edge < 2 ^ 32 }
        ensures of { IsSnapshotOf self.now.edge self.now.index number self.now.output.emitted result }
        ensures takes { result.takes ≡ takes }
    {
        Snapshot {
            task: TaskId {
                stage: self.edge + 1,
                index: self.index,
            },
            number,
            offset: 0,
            ended: false,
            emitted: self.output.emitted(),
            table: Table::new(alloc),
            takes,
            saved_in: ListOf::new(alloc),
            saved_out: ListOf::new(alloc),
        }
    }
}
