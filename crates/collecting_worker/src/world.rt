// What the collecting worker is lent, and what it hands back.
ghost use Rattle.std.specs.Prelude.{◌≡◌, ◌<◌, ℕ};
ghost use Rattle.turn_cell.specs.Passes.{IsPassOf, mine, number, seen};
ghost use Rattle.outside.specs.Keepers.{IsAboveLast};
ghost use Rattle.snapshot_channel.specs.Passes.{IsCollecting, received_by};
ghost use Rattle.conn_parts.specs.Stopping.{ToldStop};
ghost use Rattle.collecting_worker.specs.Accounts.{CollectAccount, IsLent};
ghost use Rattle.collecting_worker.specs.Steps.{EndsAs};

use crate::gathering::Gathering;
use crate::image_store::ImageStore;
use crate::worker::Worker;
use collector::Collector;
use flow_defs::{Cause, Image, Job};
use job_start::Start;
use outside::{LastImage, StopState, look_for_stop, tell_stop};
use snapshot_channel::{CollectingPass, SnapshotChannel};
use std::alloc::Global;
use std::sync::Wait;
use turn_cell::{Pass, TurnCell};

/// What the collecting worker shares with others: the job, the channel of snapshots, the cell that tells the image
/// stored last, and what stops all workers.
#[derive(Drop)]
pub struct CollectWorld<'a> {
    pub job: &'a Job,
    pub snapshots: &'a SnapshotChannel,
    pub collecting: CollectingPass,
    pub last_image: &'a TurnCell<LastImage>,
    pub last_pass: Pass<LastImage>,
    pub stop: &'a TurnCell<StopState>,
    pub stop_pass: Pass<StopState>,
}

/// The passes that the worker hands back, the image that it stored last, and why it ended.
#[derive(Drop)]
pub struct CollectEnd {
    pub collecting: CollectingPass,
    pub last_pass: Pass<LastImage>,
    pub stop_pass: Pass<StopState>,
    /// None where it stored none.
    pub last: Option<Image>,
    pub cause: Cause,
}

/// Collects the snapshots of all tasks, and stores the image of one checkpoint after the other, from the number
/// behind the start's on. `every` is how many lines a source reads between two checkpoints, from 1. With None the
/// first checkpoint is the last; else it is the one behind the image, or the start, in which all sources are ended.
/// As Flink's default one checkpoint is open at a time; a snapshot for a later one waits until that is open.
///
/// An image is stored in a turn of the stop cell that shows no entry, as `ImageStore` asks for, so none is stored
/// behind one. The others are told of it behind that.
///
/// It ends as `Done` with the last image. It ends as `Keeper`, `BigImage`, `Peer` or `Memory` for a fault of its
/// own, which it has told, and as `Stopped` where it saw another's. It holds one image beside the one that it
/// stored last, and the cost of a checkpoint is in proportion to the bytes of its image.
pub fn collect_images<K: ImageStore, R: Wait>(
    rt: &R,
    alloc: Global,
    keeper: &mut K,
    start: &Start,
    every: Option<u64>,
    world: CollectWorld<'_>,
) -> CollectEnd
    requires lent { IsLent start.now every world }
    requires cell { K.is_stopped_by keeper.old world.stop.now }
    requires above { (n : ℕ) → start.now.number < n → IsAboveLast (K.images keeper.old) n }
    ensures collecting { IsCollecting world.entry.snapshots.now result.collecting }
    ensures last_pass { IsPassOf world.entry.last_image.now result.last_pass × (number result.last_pass ≡ 0) }
    ensures account { CollectAccount world.entry.job.now start.now every (received_by result.collecting) (K.images keeper.old) (K.images keeper.new) (mine result.last_pass) result.last (K.faults keeper.old) (K.faults keeper.new) (seen result.stop_pass) result.cause }
    ensures stop { ToldStop world.entry.stop.now result.cause world.entry.stop_pass result.stop_pass }
{
    let CollectWorld {
        job,
        snapshots,
        collecting,
        last_image,
        last_pass,
        stop,
        stop_pass,
    } = world;
    let mut stop_pass = stop_pass;
    let Ok(collector) = Collector::new(alloc, job) else {
        tell_stop(rt, stop, &mut stop_pass, Cause::Memory);
        return CollectEnd {
            collecting,
            last_pass,
            stop_pass,
            last: None,
            cause: Cause::Memory,
        };
    };
    let gathering = Gathering {
        collector,
        channel: snapshots,
        pass: collecting,
        ahead: Vec::new(alloc),
    };
    let mut worker = Worker {
        gathering,
        job,
        last_image,
        last_pass,
        stop,
        stop_pass,
        last: None,
    };
    let cause = worker.run(rt, alloc, keeper, start, every);
    end_worker(rt, worker, cause)
}

// Ends the worker: one that did its work was stopped where another worker had met a fault before.
fn end_worker<R: Wait>(rt: &R, worker: Worker<'_>, cause: Cause) -> CollectEnd
    requires { IsPassOf worker.stop.now worker.stop_pass }
    ensures passes { (result.collecting ≡ worker.entry.gathering.pass) × (result.last_pass ≡ worker.entry.last_pass) }
    ensures last { result.last ≡ worker.entry.last }
    ensures ended { EndsAs worker.entry.stop.now cause result.cause worker.entry.stop_pass result.stop_pass }
{
    let Worker {
        gathering,
        job: _,
        last_image: _,
        last_pass,
        stop,
        stop_pass,
        last,
    } = worker;
    let Gathering {
        collector: _collector,
        channel: _,
        pass,
        ahead: _ahead,
    } = gathering;
    let mut stop_pass = stop_pass;
    let cause = match cause {
        Cause::Done => match look_for_stop(rt, stop, &mut stop_pass) {
            Some(_) => Cause::Stopped,
            None => Cause::Done,
        },
        _ => cause,
    };
    CollectEnd {
        collecting: pass,
        last_pass,
        stop_pass,
        last,
        cause,
    }
}
