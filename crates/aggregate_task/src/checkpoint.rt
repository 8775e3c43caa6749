// A checkpoint of an aggregate task.
ghost use Rattle.std.specs.Prelude.{◌≡◌, IfErr, MatchResult};
ghost use Rattle.flow_defs.specs.Jobs.{IsJob, last_edge};
ghost use Rattle.plain_machine.specs.Images.{AreRuns, HasShortKeys};
ghost use Rattle.aggregate_task.specs.Acknowledging.{Acknowledged, BreaksFor, IsAcking, IsAtCheckpoint, IsSame, IsCountUnderWay};
ghost use Rattle.aggregate_task.specs.Aggregates.{HasAccount};
ghost use Rattle.aggregate_task.specs.Snapshots.{IsSnapshotWith};

use flow_defs::{Cause, Job, ListOf, Snapshot, Table, TakeRun, TaskId};
use input_gate::Gate;
use job_plan::Counts;
use std::alloc::Global;
use std::sync::Wait;
use task_output::laws::what_was_seen_stays;
use task_output::{Acks, StopLook, TaskStopped};
use task_taking::TaskTaking;

/// By what a task of the aggregate acknowledges checkpoints.
#[derive(Drop)]
pub struct AggregateOutput<'a> {
    pub job: &'a Job,
    /// The index of the task.
    pub index: u32,
    /// How many lines a source reads between two barriers. None: the job has one checkpoint.
    pub every: Option<u64>,
    pub acks: Acks<'a>,
    /// How it learns that another worker has met a fault.
    pub stop: StopLook<'a>,
}

/// Why a task goes no further, and the runs of what it took behind the last snapshot that it sent.
#[derive(Drop)]
pub struct Ending {
    pub cause: Cause,
    pub takes: ListOf<TakeRun>,
}

/// Takes the checkpoint to whose barriers the task has come: resumes the channels, and acknowledges it.
/// Answers whether it is the last of the job.
pub fn take_checkpoint<G: Gate, R: Wait>(
    rt: &R,
    alloc: Global,
    gate: &mut G,
    taking: &mut TaskTaking,
    counts: &Counts,
    out: &mut AggregateOutput<'_>,
) -> Result<bool, Ending>
    requires at { IsAtCheckpoint (G.account gate.old) (G.shows gate.old) taking.old counts.now out.old }
    requires own { IsAcking out.old }
    ensures gate { (G.ends gate.new ≡ G.ends gate.old) × ((G.account gate.new).channels ≡ (G.account gate.old).channels) }
    ensures own { IsAcking out.new × IsSame out.old out.new }
    ensures taken { MatchResult result (λ last. IsCountUnderWay (G.account gate.new) (G.shows gate.new) taking.new counts.now out.new last) (λ end. HasAccount (G.account gate.new) (G.shows gate.new) out.new end) }
    ensures breaks { IfErr result (λ end. BreaksFor out.new end.cause) }
{
    what_was_seen_stays();
    let takes = taking.resume_all(rt, gate);
    match acknowledge(rt, alloc, out, counts, takes) {
        Ok(last) => Ok(last),
        Err(end) => Err(end),
    }
}

// Sends the snapshot for the next checkpoint, with these takes and a copy of the counts. Answers whether it
// is the last of the job.
fn acknowledge<R: Wait>(
    rt: &R,
    alloc: Global,
    out: &mut AggregateOutput<'_>,
    counts: &Counts,
    takes: ListOf<TakeRun>,
) -> Result<bool, Ending>
    requires own { IsAcking out.old }
    requires keys { HasShortKeys counts.now }
    requires runs { AreRuns out.old.job.now (last_edge out.old.job.now) out.old.index takes.items }
    ensures own { IsAcking out.new × IsSame out.old out.new }
    ensures sent { Acknowledged out.old counts.now takes.items out.new result }
{
    let Some(k) = out.acks.next_number() else {
        return Err(Ending {
            cause: Cause::Memory,
            takes,
        });
    };
    let last = match out.acks.learn_last(rt, &mut out.stop, out.every, k) {
        Ok(last) => last,
        Err(TaskStopped) => {
            return Err(Ending {
                cause: Cause::Stopped,
                takes,
            });
        }
    };
    let Ok(table) = counts.to_table() else {
        return Err(Ending {
            cause: Cause::Memory,
            takes,
        });
    };
    let snapshot = snapshot_at(alloc, out.job, out.index, k, table, takes);
    match out.acks.send(rt, &mut out.stop, snapshot) {
        Ok(()) => Ok(last),
        Err(back) => Err(Ending {
            cause: Cause::Stopped,
            takes: back.takes,
        }),
    }
}

// The snapshot of the task of the aggregate with this index for checkpoint k. It takes no memory.
fn snapshot_at(
    alloc: Global,
    job: &Job,
    index: u32,
    k: u64,
    table: Table,
    takes: ListOf<TakeRun>,
) -> Snapshot
    requires { IsJob job.now }
    ensures { IsSnapshotWith job.now index k table takes.items result }
{
    Snapshot {
        task: TaskId {
            stage: job.edges() as u32,
            index,
        },
        number: k,
        offset: 0,
        ended: false,
        emitted: 0,
        table,
        takes,
        saved_in: ListOf::new(alloc),
        saved_out: ListOf::new(alloc),
    }
}
