// The calls of the channel.
ghost use Rattle.std.specs.Prelude.{◌≡◌, ℕ, suc, ◌+◌, ◌<◌, ◌≤◌, [], ◌∷◌, ◌++◌, length, map, All, IfOk, IfSome, IfNone, OnOk, MatchOption, MatchResult};
ghost use Rattle.crossbeam_channel.specs.Claims.{view, IsSeatAt};
ghost use Rattle.crossbeam_channel.specs.Ends.{sends_on, receives_on};
ghost use Rattle.flow_defs.specs.Jobs.{IsJob, last_edge, tasks};
ghost use Rattle.snapshot_channel.specs.Snapshots.{IsTask, MaySend, snapshots_of};
ghost use Rattle.snapshot_channel.specs.Views.{IsFrom, IsUnopened, MayDeal, behind, dealt, dealt_to, opened, unopened};
ghost use Rattle.snapshot_channel.specs.Passes.{IsCollecting, IsDealt, IsFresh, IsOpened, IsPassOf, IsReceivedOf, IsAllReceived, back_by, handed_by, next_in, opening, opening_of, received_by, sent_by, task_of};

use crate::opened::{CollectingPass, Line, LinePass, Opened, SnapshotChannel, TaskPass};
use crate::rule::{Deal, Gather, Got, Met, Open, Opens, Sent, Whose};
use crossbeam_channel::bounded_with;
use flow_defs::{Job, ListOf, Snapshot, TaskId};
use job_start::Start;
use std::alloc::{AllocError, Global};
use std::marker::Brand;
use std::snapshot;
use std::sync::Wait;

// As many as the largest job has tasks, so that each finds room for its snapshot of one checkpoint.
const ROOM: usize = 64;

// Opens a line for what `B` names.
fn open_for<B: Opens>(
    line: &Line,
    pass: &mut LinePass,
    job: &Job,
    start: &Start,
    every: Option<u64>,
)
    requires opening { B.opening ≡ opening job.now start.now every }
    requires seat { IsSeatAt (sends_on line.now) pass.old }
    requires unopened { IsUnopened (view pass.old) }
    ensures seat { IsSeatAt (sends_on line.now) pass.new }
    ensures view { view pass.new ≡ opened (opening job.now start.now every) (view pass.old) }
{
    let (_job, _start, _every) = (job, start, every);
    // The pass that an opening makes beside stands for nothing.
    let _spent = line.another::<Open<B>>(pass);
}

// Gives the task that `B` names its pass.
fn deal_to<B: Whose>(line: &Line, pass: &mut LinePass, whose: TaskId) -> LinePass
    requires whose { B.whose ≡ whose }
    requires seat { IsSeatAt (sends_on line.now) pass.old }
    requires may { MayDeal whose (view pass.old) }
    ensures seat { IsSeatAt (sends_on line.now) pass.new × IsSeatAt (sends_on line.now) result }
    ensures views { (view pass.new ≡ dealt whose (view pass.old)) × (view result ≡ dealt_to whose (view pass.old)) }
{
    let _ = whose;
    line.another::<Deal<B>>(pass)
}

impl SnapshotChannel {
    /// A channel for this job, whose tasks go on from here, and for the lines that a source reads between two
    /// checkpoints, or None where it reads to its end. It has room for one snapshot of each task of the largest
    /// job.
    pub fn open(
        alloc: Global,
        job: &Job,
        start: &Start,
        every: Option<u64>,
    ) -> Result<Opened, AllocError>
        requires { IsJob job.now }
        ensures { IfOk result (λ o. IsOpened job.now start.now every o) }
    {
        let mut passes = ListOf::new(alloc);
        let (channel, mut collecting) = SnapshotChannel::line(alloc, job, start, every)?;
        for stage in 0..job.edges() + 1 {
            let count = job.tasks(stage);
            channel.deal_stage(&mut collecting, &mut passes, stage as u32, count)?;
        }
        Ok(Opened {
            channel,
            collecting,
            passes,
        })
    }

    /// Sends a snapshot, the next one of the pass's task. It comes back where there was no room for it.
    pub fn send<R: Wait>(
        &self,
        rt: &R,
        pass: &mut TaskPass,
        snapshot: Snapshot,
    ) -> Result<(), Snapshot>
        requires pass { IsPassOf self.now pass.old }
        requires may { MaySend (opening_of self.now) (task_of pass.old) (sent_by pass.old) snapshot }
        ensures pass { IsPassOf self.now pass.new × (task_of pass.new ≡ task_of pass.old) }
        ensures sent { MatchResult result (λ _. sent_by pass.new ≡ sent_by pass.old ++ snapshot ∷ []) (λ back. (back ≡ snapshot) × (sent_by pass.new ≡ sent_by pass.old)) }
    {
        match self
            .line
            .try_send_as::<Sent, R>(rt, &mut pass.pass, snapshot)
        {
            Ok(()) => Ok(()),
            Err(refused) => Err(refused.into_inner()),
        }
    }

    /// Receives a snapshot, the next one of its task. None where the channel was empty at a moment of this
    /// call, so that all is received that the passes which were taken back before had sent.
    pub fn receive<R: Wait>(&self, rt: &R, pass: &mut CollectingPass) -> Option<Snapshot>
        requires { IsCollecting self.now pass.old }
        ensures pass { IsCollecting self.now pass.new }
        ensures received { MatchOption result (received_by pass.new ≡ received_by pass.old) (λ x. received_by pass.new ≡ received_by pass.old ++ x ∷ []) }
        ensures next { IfSome result (λ x. IsTask (opening_of self.now).job x.task × MaySend (opening_of self.now) x.task (snapshots_of x.task (received_by pass.old)) x) }
        ensures none { IfNone result (All (IsAllReceived (received_by pass.old)) (back_by pass.old)) }
    {
        self.line_end.try_recv_as::<Got, R>(rt, &mut pass.pass).ok()
    }

    // Makes a line, and opens it.
    fn line(
        alloc: Global,
        job: &Job,
        start: &Start,
        every: Option<u64>,
    ) -> Result<(SnapshotChannel, CollectingPass), AllocError>
        ensures opening { IfOk result (λ r. opening_of r.0 ≡ opening job.now start.now every) }
        ensures collecting { IfOk result (λ r. IsCollecting r.0 r.1) }
        ensures empty { IfOk result (λ r. view r.1.pass ≡ opened (opening job.now start.now every) unopened) }
    {
        let (line, line_end, mut pass) = bounded_with(alloc, ROOM)?;
        open_for::<Brand>(&line, &mut pass, job, start, every);
        let channel = SnapshotChannel {
            line,
            line_end,
            job: snapshot::Snapshot::of(job),
            start: snapshot::Snapshot::of(start),
            every,
        };
        Ok((channel, CollectingPass { pass }))
    }

    // Gives a task its pass.
    fn deal(&self, collecting: &mut CollectingPass, whose: TaskId) -> TaskPass
        requires collecting { IsCollecting self.now collecting.old }
        requires is_task { IsTask (opening_of self.now).job whose }
        requires from { IsFrom (next_in (view collecting.old.pass)) whose }
        ensures collecting { IsCollecting self.now collecting.new }
        ensures next { next_in (view collecting.new.pass) ≡ behind whose }
        ensures none { received_by collecting.new ≡ received_by collecting.old }
        ensures fresh { IsFresh self.now result }
        ensures whose { task_of result ≡ whose }
    {
        TaskPass {
            pass: deal_to::<Brand>(&self.line, &mut collecting.pass, whose),
        }
    }

    // Gives the tasks of a stage their passes.
    fn deal_stage(
        &self,
        collecting: &mut CollectingPass,
        passes: &mut ListOf<TaskPass>,
        stage: u32,
        count: u32,
    ) -> Result<(), AllocError>
        requires dealt { IsDealt self.now stage collecting.old passes.old.items }
        requires stages { stage ≤ suc (last_edge (opening_of self.now).job) }
        requires count { count ≡ tasks (opening_of self.now).job stage }
        ensures { OnOk result (IsDealt self.now (stage + 1) collecting.new passes.new.items) }
    {
        for index in 0..count {
            passes.push(self.deal(collecting, TaskId { stage, index }))?;
        }
        Ok(())
    }

    /// Takes a task's pass back. It sends no more.
    pub fn take_back(&self, collecting: &mut CollectingPass, pass: TaskPass)
        requires collecting { IsCollecting self.now collecting.old }
        requires pass { IsPassOf self.now pass }
        ensures collecting { IsCollecting self.now collecting.new }
        ensures received { received_by collecting.new ≡ received_by collecting.old }
        ensures back { back_by collecting.new ≡ handed_by pass ∷ back_by collecting.old }
    {
        let TaskPass { pass } = pass;
        self.line.absorb::<Gather>(&mut collecting.pass, pass);
    }

    // Takes all these passes back, the last one first.
    fn take_all_back(&self, collecting: &mut CollectingPass, passes: ListOf<TaskPass>)
        requires collecting { IsCollecting self.now collecting.old }
        requires passes { All (IsPassOf self.now) passes.items }
        ensures collecting { IsCollecting self.now collecting.new }
        ensures received { received_by collecting.new ≡ received_by collecting.old }
        ensures back { back_by collecting.new ≡ map handed_by passes.items ++ back_by collecting.old }
    {
        let mut rest = passes;
        while let Some(pass) = rest.pop() {
            self.take_back(collecting, pass);
        }
    }

    /// Uses all passes up, those of the tasks in any order, and tells what was received of each. The cost is their
    /// number.
    pub fn close(&self, collecting: CollectingPass, passes: ListOf<TaskPass>)
        requires collecting { IsCollecting self.now collecting }
        requires passes { All (IsPassOf self.now) passes.items }
        ensures { All (IsReceivedOf (opening_of self.now) (received_by collecting)) passes.items }
    {
        let mut collecting = collecting;
        self.take_all_back(&mut collecting, passes);
        self.line.learn_as::<Met>(&mut collecting.pass);
    }
}
