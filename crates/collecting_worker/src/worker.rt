// The worker, from one checkpoint to the next.
ghost use Rattle.std.specs.Prelude.{◌≡◌, ◌≢◌, ◌≤◌, ◌<◌, ◌+◌, ◌++◌, [], ℕ, None, true, IfOk, IfErr, OnOk};
ghost use Rattle.turn_cell.specs.Passes.{mine, number, seen};
ghost use Rattle.flow_defs.specs.declared.cause.Cause.TheVariants.{Stopped};
ghost use Rattle.plain_machine.specs.Spelling.{spelling};
ghost use Rattle.job_start.specs.Starts.{IsStartFor};
ghost use Rattle.snapshot_channel.specs.Passes.{received_by};
ghost use Rattle.outside.specs.Keepers.{IsAboveLast};
ghost use Rattle.outside.specs.Stops.{told_of};
ghost use Rattle.collecting_worker.specs.Accounts.{CollectAccount};
ghost use Rattle.collecting_worker.specs.Gathering.{MayBeLast, every_of, first_is_last, start_of};
ghost use Rattle.collecting_worker.specs.Steps.{BreaksFor, HasBroken, HasKept, HasOwnPasses, IsImageReady, IsSameWorker, IsWorker};

use crate::gathering::Gathering;
use crate::image_store::ImageStore;
use crate::spelling::{are_all_ended, spell};
use crate::storing::store;
use collector::Checkpoint;
use collector::laws::snapshots_make_fitting;
use flow_defs::{Bytes, Cause, Image, Job};
use job_start::Start;
use outside::{LastImage, StopState, Stored, tell_cause, tell_stop, tell_stored};
use std::alloc::Global;
use std::sync::Wait;
use turn_cell::{Pass, TurnCell};

/// What the worker works with, and the image that it stored last.
#[derive(Drop)]
pub struct Worker<'a> {
    pub gathering: Gathering<'a>,
    pub job: &'a Job,
    pub last_image: &'a TurnCell<LastImage>,
    pub last_pass: Pass<LastImage>,
    pub stop: &'a TurnCell<StopState>,
    pub stop_pass: Pass<StopState>,
    pub last: Option<Image>,
}

/// An image, and the bytes that spell it.
#[derive(Drop)]
pub struct Spelled {
    pub image: Image,
    pub bytes: Bytes,
}

// Whether the first checkpoint behind the start is the last one.
fn first_is_last(start: &Start, every: Option<u64>) -> bool
    ensures { result ≡ first_is_last start.now every }
{
    match every {
        Some(_) => start.all_were_ended(),
        None => true,
    }
}

impl<'a> Worker<'a> {
    /// Stores the image of one checkpoint after the other, until that of the last one.
    pub fn run<K: ImageStore, R: Wait>(
        &mut self,
        rt: &R,
        alloc: Global,
        keeper: &mut K,
        start: &Start,
        every: Option<u64>,
    ) -> Cause
        requires worker { IsWorker (start.now.number + 1) self.old }
        requires start { (start_of self.old.gathering ≡ start.now) × IsStartFor self.old.job.now start.now }
        requires every { every_of self.old.gathering ≡ every }
        requires fresh { (mine self.old.last_pass ≡ []) × (mine self.old.stop_pass ≡ []) × (self.old.last ≡ None) }
        requires cell { K.is_stopped_by keeper.old self.old.stop.now }
        requires above { (n : ℕ) → start.now.number < n → IsAboveLast (K.images keeper.old) n }
        ensures same { IsSameWorker self.old self.new }
        ensures own { HasOwnPasses self.new }
        ensures account { CollectAccount self.old.job.now start.now every (received_by self.new.gathering.pass) (K.images keeper.old) (K.images keeper.new) (mine self.new.last_pass) self.new.last (K.faults keeper.old) (K.faults keeper.new) (seen self.new.stop_pass) result }
        ensures told { mine self.new.stop_pass ≡ told_of result }
        ensures stopped { result ≡ Stopped → seen self.new.stop_pass ≢ [] }
    {
        snapshots_make_fitting();
        let mut final_one = first_is_last(start, every);
        for before in start.number..u64::MAX - 1 {
            let number = before + 1;
            let checkpoint = Checkpoint { number, final_one };
            match self.store_next(rt, alloc, keeper, checkpoint) {
                Ok(all_ended) => {
                    if final_one {
                        return Cause::Done;
                    }
                    final_one = all_ended;
                }
                Err(cause) => return cause,
            }
        }
        tell_stop(rt, self.stop, &mut self.stop_pass, Cause::Memory);
        Cause::Memory
    }

    // Gathers the image of a checkpoint and stores it. Whether all sources are ended in it is the answer.
    fn store_next<K: ImageStore, R: Wait>(
        &mut self,
        rt: &R,
        alloc: Global,
        keeper: &mut K,
        checkpoint: Checkpoint,
    ) -> Result<bool, Cause>
        requires worker { IsWorker checkpoint.number self.old }
        requires number { 1 ≤ checkpoint.number }
        requires last { checkpoint.final_one ≡ true → MayBeLast self.old.job.now (start_of self.old.gathering) (every_of self.old.gathering) (received_by self.old.gathering.pass) checkpoint.number }
        requires cell { K.is_stopped_by keeper.old self.old.stop.now }
        requires above { IsAboveLast (K.images keeper.old) checkpoint.number }
        ensures cell { K.is_stopped_by keeper.new self.new.stop.now }
        ensures same { IsSameWorker self.old self.new }
        ensures own { HasOwnPasses self.new }
        ensures never_falls { K.faults keeper.old ≤ K.faults keeper.new }
        ensures worker { OnOk result (IsWorker (checkpoint.number + 1) self.new) }
        ensures above { OnOk result ((more : ℕ) → checkpoint.number < more → IsAboveLast (K.images keeper.new) more) }
        ensures stored { IfOk result (λ all_ended. (image : _) × (bytes : _) × IsImageReady self.new checkpoint image bytes × HasKept self.old self.new (K.images keeper.old) (K.images keeper.new) image all_ended) }
        ensures broken { IfErr result (HasBroken self.old self.new (K.images keeper.old) (K.images keeper.new)) }
        ensures fault { IfErr result (BreaksFor self.new.job.now (received_by self.new.gathering.pass) checkpoint (K.faults keeper.old) (K.faults keeper.new) (seen self.new.stop_pass)) }
    {
        match self.make(rt, alloc, checkpoint) {
            Ok(Spelled { image, bytes }) => self.keep(rt, alloc, keeper, image, bytes.as_slice()),
            Err(cause) => Err(cause),
        }
    }

    // Makes the image of a checkpoint, and spells it.
    fn make<R: Wait>(
        &mut self,
        rt: &R,
        alloc: Global,
        checkpoint: Checkpoint,
    ) -> Result<Spelled, Cause>
        requires worker { IsWorker checkpoint.number self.old }
        requires number { 1 ≤ checkpoint.number }
        requires last { checkpoint.final_one ≡ true → MayBeLast self.old.job.now (start_of self.old.gathering) (every_of self.old.gathering) (received_by self.old.gathering.pass) checkpoint.number }
        ensures same { IsSameWorker self.old self.new }
        ensures own { HasOwnPasses self.new }
        ensures still { (self.new.last_pass ≡ self.old.last_pass) × (self.new.last ≡ self.old.last) }
        ensures worker { OnOk result (IsWorker (checkpoint.number + 1) self.new) }
        ensures ready { IfOk result (λ made. IsImageReady self.new checkpoint made.image made.bytes) }
        ensures untold { OnOk result (mine self.new.stop_pass ≡ mine self.old.stop_pass) }
        ensures told { IfErr result (λ cause. mine self.new.stop_pass ≡ mine self.old.stop_pass ++ told_of cause) }
        ensures fault { IfErr result (λ cause. (fell rose : ℕ) → BreaksFor self.new.job.now (received_by self.new.gathering.pass) checkpoint fell rose (seen self.new.stop_pass) cause) }
    {
        let gathered = self
            .gathering
            .gather(rt, alloc, checkpoint, self.stop, &mut self.stop_pass);
        let image = match gathered {
            Ok(image) => image,
            Err(cause) => {
                tell_cause(rt, self.stop, &mut self.stop_pass, cause);
                return Err(cause);
            }
        };
        match spell(alloc, self.job, &image) {
            Ok(bytes) => Ok(Spelled { image, bytes }),
            Err(cause) => {
                tell_cause(rt, self.stop, &mut self.stop_pass, cause);
                Err(cause)
            }
        }
    }

    // Stores an image, and tells of it.
    fn keep<K: ImageStore, R: Wait>(
        &mut self,
        rt: &R,
        alloc: Global,
        keeper: &mut K,
        image: Image,
        bytes: &[u8],
    ) -> Result<bool, Cause>
        requires own { HasOwnPasses self.old }
        requires bytes { bytes.now ≡ spelling image }
        requires cell { K.is_stopped_by keeper.old self.old.stop.now }
        requires above { IsAboveLast (K.images keeper.old) image.number }
        ensures cell { K.is_stopped_by keeper.new self.new.stop.now }
        ensures own { HasOwnPasses self.new }
        ensures same { (self.new.gathering ≡ self.old.gathering) × (self.new.job ≡ self.old.job) × (self.new.last_image ≡ self.old.last_image) × (self.new.stop ≡ self.old.stop) × (number self.new.stop_pass ≡ number self.old.stop_pass) }
        ensures never_falls { K.faults keeper.old ≤ K.faults keeper.new }
        ensures above { OnOk result ((more : ℕ) → image.number < more → IsAboveLast (K.images keeper.new) more) }
        ensures kept { IfOk result (HasKept self.old self.new (K.images keeper.old) (K.images keeper.new) image) }
        ensures broken { IfErr result (HasBroken self.old self.new (K.images keeper.old) (K.images keeper.new)) }
        ensures fault { IfErr result (λ cause. (job : _) (received : _) (checkpoint : _) → BreaksFor job received checkpoint (K.faults keeper.old) (K.faults keeper.new) (seen self.new.stop_pass) cause) }
    {
        match store(
            rt,
            alloc,
            keeper,
            self.stop,
            &mut self.stop_pass,
            image.number,
            bytes,
        ) {
            Ok(()) => {}
            Err(cause) => return Err(cause),
        }
        let number = image.number;
        let all_ended = are_all_ended(&image);
        tell_stored(
            rt,
            self.last_image,
            &mut self.last_pass,
            Stored { number, all_ended },
        );
        self.last = Some(image);
        Ok(all_ended)
    }
}
