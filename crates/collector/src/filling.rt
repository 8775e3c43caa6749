// Snapshots are moved into an image.
ghost use Rattle.std.specs.Prelude.{◌≡◌, ℕ, ◌+◌, ◌<◌, true, length, IsSomeAnd};
ghost use Rattle.std.specs.List.{AllByRecursion};
ghost use Rattle.flow_defs.specs.Jobs.{IsJob, is_channel};
ghost use Rattle.plain_machine.specs.Places.{channels, channel_place};
ghost use Rattle.plain_machine.specs.Images.{items_at};
ghost use Rattle.collector.specs.Pieces.{piece_or};
ghost use Rattle.collector.specs.Filling.{IsOfJob, HasShape, IsPutInto, IsFilled, ArePut, AreOfTasks, AreEmpty};

use crate::lists::put_from;
use crate::places::{place_of, tasks_before};
use flow_defs::{Bytes, Image, Job, ListOf, Saved, Snapshot};
use plain_machine::laws;

// Puts pieces at the places of their channels. Of several of one channel the first one stays.
fn put_pieces(list: &mut ListOf<Bytes>, job: &Job, pieces: ListOf<Saved>)
    requires job { IsJob job.now }
    requires channels { AllByRecursion (IsOfJob job.now) pieces.items }
    requires many { length list.old.items ≡ length (channels job.now) }
    ensures { ArePut job.now pieces.items list.old.items list.new.items }
{
    laws::places_are_in_order();
    let mut rest = pieces;
    'pieces: while let Some(saved) = rest.pop() {
        let place = place_of(job, saved.channel);
        put_from(list, 0, place, saved.bytes);
    }
}

// Puts what the snapshot of the task at a place says to its places.
fn put_snapshot(image: &mut Image, job: &Job, place: usize, snapshot: Snapshot)
    requires job { IsJob job.now }
    requires shape { HasShape job.now image.old }
    requires pieces_in { AllByRecursion (IsOfJob job.now) snapshot.saved_in.items }
    requires pieces_out { AllByRecursion (IsOfJob job.now) snapshot.saved_out.items }
    ensures { IsPutInto job.now place snapshot image.old image.new }
{
    let senders = tasks_before(job, job.edges());
    let sources = job.sources.as_slice().len();
    put_from(&mut image.offsets, 0, place, snapshot.offset);
    put_from(&mut image.ended, 0, place, snapshot.ended);
    put_from(&mut image.emitted, 0, place, snapshot.emitted);
    put_from(&mut image.tables, senders, place, snapshot.table);
    put_from(&mut image.takes, sources, place, snapshot.takes);
    put_pieces(&mut image.saved_in, job, snapshot.saved_in);
    put_pieces(&mut image.saved_out, job, snapshot.saved_out);
}

/// Moves the snapshots of all tasks into a blank image.
pub fn fill_image(image: &mut Image, job: &Job, snapshots: ListOf<Option<Snapshot>>)
    requires job { IsJob job.now }
    requires shape { HasShape job.now image.old }
    requires empty_in { AreEmpty image.old.saved_in.items }
    requires empty_out { AreEmpty image.old.saved_out.items }
    requires tasks { AreOfTasks job.now snapshots.items }
    ensures { IsFilled job.now snapshots.items image.old image.new }
{
    let mut rest = snapshots;
    'tasks: while let Some(slot) = rest.pop() {
        if let Some(snapshot) = slot {
            put_snapshot(image, job, rest.as_slice().len(), snapshot);
        }
    }
}
