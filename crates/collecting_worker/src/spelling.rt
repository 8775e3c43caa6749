// Spells the image of a checkpoint, where nothing keeps it from being stored.
ghost use Rattle.std.specs.Prelude.{◌≡◌, ℕ, ◌≤◌, List, None, IfOk, IfErr, OnOk};
ghost use Rattle.plain_machine.specs.Spelling.{spelling, CanSpell};
ghost use Rattle.channel_state.specs.ImageFaults.{IsReadable};
ghost use Rattle.collector.specs.Faults.{IsFaultOf};
ghost use Rattle.collector.specs.declared.collector.Checkpoint.{Checkpoint};
ghost use Rattle.flow_defs.specs.declared.image.Snapshot.{Snapshot};
ghost use Rattle.outside.specs.declared.stop.StopEntry.{StopEntry};
ghost use Rattle.collecting_worker.specs.Accounts.{HasText};
ghost use Rattle.collecting_worker.specs.Images.{has_all_ended};
ghost use Rattle.collecting_worker.specs.Gathering.{IsComplete};
ghost use Rattle.collecting_worker.specs.Steps.{BreaksFor};

use channel_state::{WriteFault, write_image};
use collector::find_fault;
use collector::laws::snapshots_make_fitting;
use flow_defs::{Bytes, Cause, Image, Job};
use std::alloc::Global;

/// The bytes that spell an image. Of one with a fault it answers the cause, and spells none.
pub fn spell(alloc: Global, job: &Job, image: &Image) -> Result<Bytes, Cause>
    requires text { HasText job.now }
    requires number { 1 ≤ image.now.number }
    requires complete { (received : List Snapshot) × (checkpoint : Checkpoint) × IsComplete job.now received checkpoint image.now }
    ensures sound { IfOk result (λ _. IsFaultOf job.now image.now None) }
    ensures can { OnOk result (CanSpell image.now) }
    ensures readable { OnOk result (IsReadable image.now) }
    ensures bytes { IfOk result (λ bytes. bytes.items ≡ spelling image.now) }
    ensures fault { IfErr result (λ cause. (received : List Snapshot) (checkpoint : Checkpoint) (fell rose : ℕ) (met : List (ℕ × StopEntry)) → IsComplete job.now received checkpoint image.now →
        BreaksFor job.now received checkpoint fell rose met cause) }
{
    snapshots_make_fitting();
    if let Some(fault) = find_fault(job, image) {
        return Err(Cause::Peer { fault });
    }
    match write_image(alloc, image) {
        Ok(bytes) => Ok(bytes),
        Err(WriteFault::TooBig) => Err(Cause::BigImage),
        Err(WriteFault::Memory) => Err(Cause::Memory),
    }
}

/// Whether all sources are ended in an image.
pub fn are_all_ended(image: &Image) -> bool
    ensures { result ≡ has_all_ended image.now }
{
    image.ended.as_slice().iter().all(|ended| *ended)
}
