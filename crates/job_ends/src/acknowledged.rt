// The passes by which the tasks acknowledged checkpoints.
ghost use Rattle.std.specs.Prelude.{◌≡◌, ◌+◌, ◌<◌, ◌≤◌, [], ◌∷◌, ◌++◌, length};
ghost use Rattle.flow_defs.specs.Jobs.{IsJob};
ghost use Rattle.snapshot_channel.specs.Passes.{IsCollecting, received_by};
ghost use Rattle.snapshot_channel.specs.Snapshots.{all_tasks};
ghost use Rattle.job_workers.specs.Places.{Each};
ghost use Rattle.job_ends.specs.Ended.{AreReceived, AreSettled, ChannelsStay, HaveAcknowledged};
ghost use Rattle.job_ends.specs.Leaving.{HasSnapshots, RowWithoutSnapshots, acknowledged_by};

use crate::left::take_snapshots;
use flow_defs::{Job, ListOf};
use job_workers::TaskRow;
use snapshot_channel::{CollectingPass, SnapshotChannel, TaskPass};

// Puts a pass behind others, in a list that has room for it.
fn push_pass(passes: &mut ListOf<TaskPass>, pass: TaskPass)
    requires { 0 < passes.old.room }
    ensures items { passes.new.items ≡ passes.old.items ++ pass ∷ [] }
    ensures room { passes.old.room ≤ passes.new.room + 1 }
{
    match passes.push(pass) {
        Ok(()) => {}
        Err(_) => unreachable!(),
    }
}

// Takes the passes of the tasks of a stage out of their places.
fn take_row<'a, 'p, S>(row: &mut TaskRow<'a, 'p, S>, passes: &mut ListOf<TaskPass>)
    requires have { Each HasSnapshots row.old.items }
    requires room { length row.old.items ≤ passes.old.room }
    ensures row { RowWithoutSnapshots row.old row.new }
    ensures passes { passes.new.items ≡ passes.old.items ++ acknowledged_by row.old }
    ensures room { passes.old.room ≤ passes.new.room + length row.old.items }
{
    let tasks = row.as_slice().len();
    for task in 0..tasks {
        let pass = take_snapshots(&mut row.as_mut_slice()[task]);
        push_pass(passes, pass);
    }
}

/// Takes the passes of the channel of snapshots out of what the tasks left, into a list that has room for them, and
/// tells what was received of each task. The passes are used up. Takes no memory.
pub fn settle_snapshots<'a, 'p, S>(
    job: &Job,
    channel: &SnapshotChannel,
    collecting: CollectingPass,
    rows: &mut [TaskRow<'a, 'p, S>],
    room: ListOf<TaskPass>,
)
    requires is_job { IsJob job.now }
    requires collecting { IsCollecting channel.now collecting }
    requires passes { HaveAcknowledged job.now channel.now rows.old }
    requires room { (room.items ≡ []) × (length (all_tasks job.now) ≤ room.room) }
    ensures received { AreReceived job.now (received_by collecting) rows.old }
    ensures rest { AreSettled rows.old rows.new }
    ensures channels { ChannelsStay rows.old rows.new }
{
    let _ = job;
    let mut passes = room;
    for stage in 0..rows.len() {
        take_row(&mut rows[stage], &mut passes);
    }
    channel.close(collecting, passes);
}
