// What a task takes.
// Runs are handed out when all channels are resumed, so that no record taken behind a barrier counts before
// it. Those of a snapshot that comes back are handed out when the task ends.
ghost use Rattle.std.specs.Prelude.{◌≡◌, ◌++◌, [], ◌∷◌, ◌<◌, ◌≤◌, ℕ, List, suc, Err, IfOk};
ghost use Rattle.flow_defs.specs.declared.job.Job.{Job};
ghost use Rattle.flow_defs.specs.Jobs.{IsJob, last_edge, tasks};
ghost use Rattle.checkpoint_laws.specs.Chapters.{RunsTake};
ghost use Rattle.task_taking.specs.Takings.{AllBlocked, HasTaken, IsAtBarrier, IsInStep, IsSame, untaken};
ghost use Rattle.task_taking.specs.Steps.{TakingGoesOn, GoesOnFrom, TookItem, TookNext, cause_of};

use crate::places::{sender_of, ways_of};
use crate::resuming::resume_each;
use crate::runs::{make_room, note_take};
use barriers::{Action, Aligner};
use checkpoint_laws::laws::chapters_grow;
use flow_defs::{BarrierKind, Bytes, Cause, Exchange, Job, ListOf, PeerFault, TakeRun};
use input_gate::{Gate, GateEnd, GateItem};
use std::alloc::{AllocError, Global};
use std::marker::Model;
use std::mem;
use std::sync::Wait;

/// What a task takes next.
#[derive(Debug, Drop)]
pub enum Taken {
    Line(Bytes),
    /// The barriers of checkpoint k have come on all channels. Checkpoints count from 1.
    Checkpoint { k: u64 },
    /// The end of each channel came, and nothing is left to take.
    AllEnded,
}

/// What a task takes from its gate: records, which it notes as runs of their senders, and the barriers of
/// checkpoints.
///
/// As in Flink a task aligns its channels: one that gave the barrier of a checkpoint is read no further until
/// all have given it. Then the task snapshots, and resumes them.
#[derive(Drop)]
pub struct TaskTaking {
    alloc: Global,
    exchange: Exchange,
    index: u32,
    channels: u32,
    // The records taken since the last barrier.
    runs: ListOf<TakeRun>,
    aligner: Aligner,
}

impl Model for TaskTaking {
    ghost use Rattle.task_taking.specs.Takings.{Taking};

    ghost Value = { Taking };

    ghost view = { λ t. record { exchange = t.exchange; index = t.index; channels = t.channels; runs = t.runs.items; alignment = t.aligner } };
}

impl TaskTaking {
    /// Nothing was taken yet by the task of this index behind this edge.
    pub fn new(alloc: Global, job: &Job, edge: u32, index: u32) -> Result<Self, AllocError>
        requires is_job { IsJob job.now }
        requires task { (edge ≤ last_edge job.now) × (index < tasks job.now (suc edge)) }
        ensures is { IfOk result (λ taking. taking ≡ untaken job.now edge index) }
    {
        let channels = ways_of(job, edge);
        let aligner = Aligner::new(alloc, channels)?;
        Ok(TaskTaking {
            alloc,
            exchange: job.exchange(edge as usize),
            index,
            channels,
            runs: ListOf::new(alloc),
            aligner,
        })
    }

    /// Takes what is next, and notes it where it is a record. It waits until there is such.
    ///
    /// After an `Err` the gate gives nothing more.
    pub fn next<G: Gate, R: Wait>(&mut self, rt: &R, gate: &mut G) -> Result<Taken, Cause>
        requires { IsInStep (G.account gate.old) self.old }
        ensures gate { (G.ends gate.new ≡ G.ends gate.old) × ((G.account gate.new).channels ≡ (G.account gate.old).channels) }
        ensures same { IsSame self.old self.new }
        ensures goes_on { TakingGoesOn (G.account gate.new) self.old self.new result }
        ensures took { (job : Job) (e b : ℕ) (groups : List (List (ℕ × List ℕ))) (took : List (ℕ × List ℕ)) → HasTaken job e b (G.account gate.old) (G.shows gate.old) self.old groups took →
            TookNext job e b (G.account gate.new) (G.shows gate.new) self.new groups took result }
        ensures stopped { result ≡ Err Cause.Stopped → G.saw_stop gate.new }
    {
        for _item in rt.forever() {
            match self.take_item(rt, gate) {
                Ok(Some(taken)) => return Ok(taken),
                Ok(None) => {}
                Err(cause) => return Err(cause),
            }
        }
        unreachable!()
    }

    // Takes one item of the gate. There is nothing to tell of a barrier that others of its checkpoint follow.
    fn take_item<G: Gate, R: Wait>(&mut self, rt: &R, gate: &mut G) -> Result<Option<Taken>, Cause>
        requires { IsInStep (G.account gate.old) self.old }
        ensures gate { (G.ends gate.new ≡ G.ends gate.old) × ((G.account gate.new).channels ≡ (G.account gate.old).channels) }
        ensures same { IsSame self.old self.new }
        ensures goes_on { GoesOnFrom (G.account gate.new) self.old self.new result }
        ensures took { (job : Job) (e b : ℕ) (groups : List (List (ℕ × List ℕ))) (took : List (ℕ × List ℕ)) → HasTaken job e b (G.account gate.old) (G.shows gate.old) self.old groups took →
            TookItem job e b (G.account gate.new) (G.shows gate.new) self.new groups took result }
        ensures stopped { result ≡ Err Cause.Stopped → G.saw_stop gate.new }
    {
        chapters_grow();
        if !make_room(&mut self.runs) {
            return Err(Cause::Memory);
        }
        // (while a checkpoint is open the next barrier of a channel that gave its own waits)
        let hold = self.aligner.is_open();
        match gate.next(rt, hold) {
            Ok(GateItem::Line { channel, line }) => {
                note_take(
                    &mut self.runs,
                    sender_of(self.exchange, self.index, channel),
                );
                Ok(Some(Taken::Line(line)))
            }
            Ok(GateItem::Barrier { channel, k, kind }) => match kind {
                BarrierKind::Inline => match self
                    .aligner
                    .on_barrier(channel, k, BarrierKind::Inline)
                {
                    Action::Block => Ok(None),
                    Action::SnapshotInline { k } => Ok(Some(Taken::Checkpoint { k })),
                    // (the task never saves)
                    Action::Nothing => unreachable!(),
                    Action::SnapshotFront { .. } => unreachable!(),
                    Action::Done { .. } => unreachable!(),
                },
                BarrierKind::Front => Err(Cause::Peer {
                    fault: PeerFault::Barrier,
                }),
            },
            Ok(GateItem::AllEnded) => Ok(Some(Taken::AllEnded)),
            Err(end) => Err(cause_of_end(end)),
        }
    }

    /// Resumes all channels behind the barriers of a checkpoint, and hands out the runs of the records that
    /// were taken before them. It takes no memory.
    pub fn resume_all<G: Gate, R: Wait>(&mut self, rt: &R, gate: &mut G) -> ListOf<TakeRun>
        requires { AllBlocked (G.account gate.old) self.old }
        ensures gate { (G.ends gate.new ≡ G.ends gate.old) × ((G.account gate.new).channels ≡ (G.account gate.old).channels) }
        ensures same { IsSame self.old self.new × (self.new.alignment ≡ self.old.alignment) }
        ensures runs { (result.items ≡ self.old.runs) × (self.new.runs ≡ []) }
        ensures goes_on { IsInStep (G.account gate.new) self.new }
        ensures taken { (job : Job) (e b : ℕ) (groups : List (List (ℕ × List ℕ))) (took : List (ℕ × List ℕ)) → IsAtBarrier job e b (G.account gate.old) (G.shows gate.old) self.old groups took →
            RunsTake job e b result.items took × HasTaken job e b (G.account gate.new) (G.shows gate.new) self.new (groups ++ took ∷ []) [] }
    {
        chapters_grow();
        resume_each(rt, gate, self.channels);
        mem::replace(&mut self.runs, ListOf::new(self.alloc))
    }

    /// The runs of the records that were taken since the last barrier.
    pub fn into_runs(self) -> ListOf<TakeRun>
        ensures { result.items ≡ self.runs }
    {
        self.runs
    }
}

// What a task ends with where its gate gives nothing more.
fn cause_of_end(end: GateEnd) -> Cause
    ensures { result ≡ cause_of end }
{
    match end {
        GateEnd::Stopped => Cause::Stopped,
        GateEnd::Memory => Cause::Memory,
        GateEnd::TooLong { .. } | GateEnd::Left { .. } => Cause::Peer {
            fault: PeerFault::Left,
        },
    }
}
