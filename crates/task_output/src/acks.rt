// By what a task acknowledges checkpoints.
ghost use Rattle.std.specs.Prelude.{◌≡◌, ◌+◌, suc, ◌++◌, [], ◌∷◌, IfOk, IfErr, IfSome, OnOk, OnErr};
ghost use Rattle.turn_cell.specs.Passes.{IsSamePass, seen};
ghost use Rattle.snapshot_channel.specs.Snapshots.{MaySend};
ghost use Rattle.snapshot_channel.specs.Passes.{opening_of, sent_by, task_of};
ghost use Rattle.task_output.specs.Acking.{HasPasses, IsSameTask, base_of};
ghost use Rattle.task_output.specs.Waiting.{HasSeenStored, HasWaited, KnowsLast};

use crate::looking::{LooksForStop, TaskStopped};
use flow_defs::Snapshot;
use job_start::Start;
use outside::{LastImage, Pause, Stored, look_for_stored};
use snapshot_channel::{SnapshotChannel, TaskPass};
use std::sync::Wait;
use turn_cell::{Pass, TurnCell};

/// By what a task acknowledges checkpoints: the channel of snapshots, the cell that tells the image stored
/// last, and its passes of both.
///
/// As in FLIP-76 a task acknowledges a checkpoint by its snapshot, and as with Flink's default one checkpoint
/// is open at a time. No call takes memory.
#[derive(Drop)]
pub struct Acks<'a> {
    pub snapshots: &'a SnapshotChannel,
    pub pass: TaskPass,
    pub last_image: &'a TurnCell<LastImage>,
    pub last_pass: Pass<LastImage>,
    /// The image from which the run goes on: the checkpoint before the first, which has number 0 at the
    /// beginning of a job.
    pub base: Stored,
    /// How many snapshots the task has sent.
    pub sent: u64,
}

/// The image from which a run goes on, as others are told of an image.
pub fn base_of(start: &Start) -> Stored
    ensures { result ≡ base_of start.now }
{
    Stored {
        number: start.number,
        all_ended: start.all_were_ended(),
    }
}

impl<'a> Acks<'a> {
    /// Sends a snapshot, the next one of the pass's task. Waits where the channel has no room for it. Where the
    /// task is stopped the snapshot comes back.
    pub fn send<L: LooksForStop, R: Wait>(
        &mut self,
        rt: &R,
        stop: &mut L,
        snapshot: Snapshot,
    ) -> Result<(), Snapshot>
        requires own { HasPasses self.old }
        requires may { MaySend (opening_of self.old.snapshots.now) (task_of self.old.pass) (sent_by self.old.pass) snapshot }
        ensures own { HasPasses self.new × IsSameTask self.old self.new × (self.new.last_pass ≡ self.old.last_pass) }
        ensures sent { OnOk result (sent_by self.new.pass ≡ sent_by self.old.pass ++ snapshot ∷ []) }
        ensures back { IfErr result (λ back. back ≡ snapshot) }
        ensures kept { OnErr result ((sent_by self.new.pass ≡ sent_by self.old.pass) × (self.new.sent ≡ self.old.sent)) }
        ensures still { L.still stop.old stop.new }
        ensures stopped { OnErr result (L.saw_stop stop.new) }
    {
        let mut pause = Pause::new();
        let mut waiting = snapshot;
        for _round in rt.forever() {
            match self.snapshots.send(rt, &mut self.pass, waiting) {
                Ok(()) => {
                    self.sent += 1;
                    return Ok(());
                }
                Err(back) => waiting = back,
            }
            match stop.look_for_stop(rt) {
                Ok(()) => {}
                Err(_) => return Err(waiting),
            }
            pause.wait(rt);
        }
        unreachable!()
    }

    /// The number of the checkpoint that the task acknowledges next. None: there is no such number of 64 bits.
    pub fn next_number(&self) -> Option<u64>
        ensures { IfSome result (λ k. k ≡ self.now.base.number + suc self.now.sent) }
    {
        self.base.number.checked_add(self.sent)?.checked_add(1)
    }

    /// Learns whether checkpoint k, which the task acknowledges next, is the last of the job: without an interval
    /// the first is, and with one it is where all sources are ended in the image of the checkpoint before. For that
    /// image it waits, until it is stored, or one behind it; that from which the run goes on is known.
    pub fn learn_last<L: LooksForStop, R: Wait>(
        &mut self,
        rt: &R,
        stop: &mut L,
        every: Option<u64>,
        k: u64,
    ) -> Result<bool, TaskStopped>
        requires own { HasPasses self.old }
        requires number { k ≡ self.old.base.number + suc self.old.sent }
        ensures own { HasPasses self.new × IsSameTask self.old self.new × (self.new.pass ≡ self.old.pass) × (self.new.sent ≡ self.old.sent) }
        ensures waited { OnOk result (HasWaited self.new.base (suc self.new.sent) (seen self.new.last_pass)) }
        ensures last { IfOk result (λ last. KnowsLast self.new.base every (seen self.new.last_pass) self.new.sent last) }
        ensures still { L.still stop.old stop.new }
        ensures stopped { OnErr result (L.saw_stop stop.new) }
    {
        if self.sent == 0 {
            return Ok(self.base.all_ended || every.is_none());
        }
        match self.wait_for_image(rt, stop, k - 1) {
            Ok(all_ended) => Ok(all_ended || every.is_none()),
            Err(stopped) => Err(stopped),
        }
    }

    // Waits until the image of this number is stored, or one behind it, and answers whether all sources are
    // ended in the one that was stored last.
    fn wait_for_image<L: LooksForStop, R: Wait>(
        &mut self,
        rt: &R,
        stop: &mut L,
        number: u64,
    ) -> Result<bool, TaskStopped>
        requires own { HasPasses self.old }
        ensures own { HasPasses self.new × IsSameTask self.old self.new × (self.new.pass ≡ self.old.pass) × (self.new.sent ≡ self.old.sent) }
        ensures stored { IfOk result (λ all_ended. HasSeenStored (seen self.new.last_pass) number all_ended) }
        ensures still { L.still stop.old stop.new }
        ensures stopped { OnErr result (L.saw_stop stop.new) }
    {
        let mut pause = Pause::new();
        for _round in rt.forever() {
            match look_for_stored(rt, self.last_image, &mut self.last_pass) {
                Some(stored) if stored.number >= number => return Ok(stored.all_ended),
                _ => {}
            }
            match stop.look_for_stop(rt) {
                Ok(()) => {}
                Err(stopped) => return Err(stopped),
            }
            pause.wait(rt);
        }
        unreachable!()
    }
}
