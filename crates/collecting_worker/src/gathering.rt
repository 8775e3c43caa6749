// Gathers the snapshots of a checkpoint.
ghost use Rattle.std.specs.Prelude.{◌≡◌, ◌≢◌, ◌+◌, [], ℕ, true, IfOk, IfErr, IfSome, IfNone, OnErr};
ghost use Rattle.turn_cell.specs.Passes.{IsPassOf, IsSamePass, seen};
ghost use Rattle.snapshot_channel.specs.Passes.{IsCollecting, received_by};
ghost use Rattle.collecting_worker.specs.Gathering.{IsBetween, IsComplete, IsInHand, IsOpen, IsSameGathering, MayBeLast, every_of, job_of, start_of};
ghost use Rattle.collecting_worker.specs.Steps.{BreaksFor};

use crate::ahead::take_numbered;
use collector::{Checkpoint, Collector};
use flow_defs::{Cause, Image, Snapshot};
use outside::{Pause, StopState, look_for_stop};
use snapshot_channel::{CollectingPass, SnapshotChannel};
use std::alloc::{AllocError, Global};
use std::sync::Wait;
use turn_cell::{Pass, TurnCell};

/// What the worker gathers snapshots with.
#[derive(Drop)]
pub struct Gathering<'a> {
    pub collector: Collector<'a>,
    pub channel: &'a SnapshotChannel,
    pub pass: CollectingPass,
    /// Snapshots that were received before their checkpoint was open.
    pub ahead: Vec<Snapshot>,
}

/// It was stopped while it waited for a snapshot.
#[derive(Drop)]
pub struct Stopped;

impl<'a> Gathering<'a> {
    /// Opens a checkpoint, waits for the snapshot of each task, and makes the image of them.
    pub fn gather<R: Wait>(
        &mut self,
        rt: &R,
        alloc: Global,
        checkpoint: Checkpoint,
        stop: &TurnCell<StopState>,
        stop_pass: &mut Pass<StopState>,
    ) -> Result<Image, Cause>
        requires between { IsBetween checkpoint.number self.old }
        requires last { checkpoint.final_one ≡ true → MayBeLast (job_of self.old) (start_of self.old) (every_of self.old) (received_by self.old.pass) checkpoint.number }
        requires stop { IsPassOf stop.now stop_pass.old }
        ensures same { IsSameGathering self.old self.new }
        ensures pass { IsCollecting self.new.channel.now self.new.pass }
        ensures between { IfOk result (λ _. IsBetween (checkpoint.number + 1) self.new) }
        ensures complete { IfOk result (IsComplete (job_of self.new) (received_by self.new.pass) checkpoint) }
        ensures stop { IsPassOf stop.now stop_pass.new × IsSamePass stop_pass.old stop_pass.new }
        ensures fault { IfErr result (λ cause. (fell rose : ℕ) → BreaksFor (job_of self.new) (received_by self.new.pass) checkpoint fell rose (seen stop_pass.new) cause) }
    {
        self.collector
            .begin(checkpoint.number, checkpoint.final_one);
        for _snapshot in rt.forever() {
            let Ok(snapshot) = self.wait_for_next(rt, checkpoint, stop, stop_pass) else {
                return Err(Cause::Stopped);
            };
            match self.take(alloc, checkpoint, snapshot) {
                Ok(Some(image)) => return Ok(image),
                Ok(None) => {}
                Err(AllocError) => return Err(Cause::Memory),
            }
        }
        unreachable!()
    }

    // Waits for a snapshot, and looks for a fault where there is none.
    fn wait_for_next<R: Wait>(
        &mut self,
        rt: &R,
        checkpoint: Checkpoint,
        stop: &TurnCell<StopState>,
        stop_pass: &mut Pass<StopState>,
    ) -> Result<Snapshot, Stopped>
        requires open { IsOpen checkpoint self.old }
        requires stop { IsPassOf stop.now stop_pass.old }
        ensures same { IsSameGathering self.old self.new }
        ensures pass { IsCollecting self.new.channel.now self.new.pass }
        ensures in_hand { IfOk result (IsInHand checkpoint self.new) }
        ensures stop { IsPassOf stop.now stop_pass.new × IsSamePass stop_pass.old stop_pass.new }
        ensures stopped { OnErr result (seen stop_pass.new ≢ []) }
    {
        let mut pause = Pause::new();
        for _round in rt.forever() {
            if let Some(snapshot) = self.next_snapshot(rt, checkpoint) {
                return Ok(snapshot);
            }
            if look_for_stop(rt, stop, stop_pass).is_some() {
                return Err(Stopped);
            }
            pause.wait(rt);
        }
        unreachable!()
    }

    // A snapshot that waited for this checkpoint, or the next one of the channel.
    fn next_snapshot<R: Wait>(&mut self, rt: &R, checkpoint: Checkpoint) -> Option<Snapshot>
        requires { IsOpen checkpoint self.old }
        ensures same { IsSameGathering self.old self.new }
        ensures in_hand { IfSome result (IsInHand checkpoint self.new) }
        ensures open { IfNone result (IsOpen checkpoint self.new) }
    {
        if let Some(snapshot) = take_numbered(&mut self.ahead, checkpoint.number) {
            return Some(snapshot);
        }
        self.channel.receive(rt, &mut self.pass)
    }

    // Acknowledges a snapshot, or lets it wait for its own checkpoint. The image comes with the last one
    // that is missing.
    fn take(
        &mut self,
        alloc: Global,
        checkpoint: Checkpoint,
        snapshot: Snapshot,
    ) -> Result<Option<Image>, AllocError>
        requires { IsInHand checkpoint self.old snapshot }
        ensures same { IsSameGathering self.old self.new }
        ensures pass { IsCollecting self.new.channel.now self.new.pass }
        ensures open { IfOk result (λ made. IfNone made (IsOpen checkpoint self.new)) }
        ensures between { IfOk result (λ made. IfSome made (λ _. IsBetween (checkpoint.number + 1) self.new)) }
        ensures complete { IfOk result (λ made. IfSome made (IsComplete (job_of self.new) (received_by self.new.pass) checkpoint)) }
    {
        if snapshot.number != checkpoint.number {
            let Ok(()) = self.ahead.push(snapshot) else {
                return Err(AllocError);
            };
            return Ok(None);
        }
        match self.collector.ack(alloc, snapshot) {
            Ok(made) => Ok(made),
            Err(_) => Err(AllocError),
        }
    }
}
