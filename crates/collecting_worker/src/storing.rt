// Stores an image, in a turn of the stop cell.
ghost use Rattle.std.specs.Prelude.{◌≡◌, ◌≤◌, ◌<◌, ◌++◌, ◌∷◌, [], ℕ, List, OnOk, OnErr, IfErr};
ghost use Rattle.turn_cell.specs.Passes.{IsPassOf, IsTurnOf, HasEntered, mine, number, seen};
ghost use Rattle.turn_cell.specs.Passes as turns;
ghost use Rattle.flow_defs.specs.declared.image.Snapshot.{Snapshot};
ghost use Rattle.flow_defs.specs.declared.job.Job.{Job};
ghost use Rattle.collector.specs.declared.collector.Checkpoint.{Checkpoint};
ghost use Rattle.outside.specs.Keepers.{IsAboveLast, with_image};
ghost use Rattle.outside.specs.Stops.{StopsFor, told_of};
ghost use Rattle.outside.specs.declared.stop.StopEntry.TheVariants.{Met};
ghost use Rattle.collecting_worker.specs.Steps.{BreaksFor};

use crate::image_store::ImageStore;
use flow_defs::Cause;
use outside::{KeepFault, StopEntry, StopState};
use std::alloc::Global;
use std::marker::Brand;
use std::sync::Wait;
use turn_cell::{Named, Pass, Turn, TurnCell};

// Ends the turn with this fault.
fn leave_met<E: Named<StopEntry>>(turn: Turn<StopState>, cause: Cause)
    requires entry { E.entry ≡ Met cause }
    requires turn { IsTurnOf turn.cell.now turn.pass.now }
    requires state { StopsFor turn.state (seen turn.pass.now ++ (number turn.pass.now, Met cause) ∷ []) }
    ensures pass { IsPassOf turn.entry.cell.now turn.exit.1.0.now }
    ensures entered { HasEntered (Met cause) turn.entry.pass.now turn.exit.1.0.now }
{
    let _ = cause;
    turn.leave::<E>();
}

/// Stores the bytes of an image in a turn of the stop cell, unless a fault was met before. Where the store fails,
/// that is the fault that was met first.
pub fn store<K: ImageStore, R: Wait>(
    rt: &R,
    alloc: Global,
    keeper: &mut K,
    cell: &TurnCell<StopState>,
    pass: &mut Pass<StopState>,
    number: u64,
    bytes: &[u8],
) -> Result<(), Cause>
    requires pass { IsPassOf cell.now pass.old }
    requires cell { K.is_stopped_by keeper.old cell.now }
    requires above { IsAboveLast (K.images keeper.old) number }
    ensures cell { K.is_stopped_by keeper.new cell.now }
    ensures pass { IsPassOf cell.now pass.new × (turns.number pass.new ≡ turns.number pass.old) }
    ensures kept { OnOk result (K.images keeper.new ≡ with_image (K.images keeper.old) number bytes.now) }
    ensures above { OnOk result ((more : ℕ) → number < more → IsAboveLast (K.images keeper.new) more) }
    ensures untold { OnOk result (mine pass.new ≡ mine pass.old) }
    ensures same { OnErr result (K.images keeper.new ≡ K.images keeper.old) }
    ensures told { IfErr result (λ cause. mine pass.new ≡ mine pass.old ++ told_of cause) }
    ensures fault { IfErr result (λ cause. (job : Job) (received : List Snapshot) (checkpoint : Checkpoint) → BreaksFor job received checkpoint (K.faults keeper.old) (K.faults keeper.new) (seen pass.new) cause) }
    ensures never_falls { K.faults keeper.old ≤ K.faults keeper.new }
{
    let mut turn = cell.enter(rt, pass);
    if turn.state().first().is_some() {
        turn.leave_as_is();
        return Err(Cause::Stopped);
    }
    match keeper.store(alloc, number, bytes, &turn) {
        Ok(()) => {
            turn.leave_as_is();
            Ok(())
        }
        Err(KeepFault::Failed) => {
            turn.state().add(Cause::Keeper);
            leave_met::<Brand>(turn, Cause::Keeper);
            Err(Cause::Keeper)
        }
        Err(KeepFault::Memory) => {
            turn.state().add(Cause::Memory);
            leave_met::<Brand>(turn, Cause::Memory);
            Err(Cause::Memory)
        }
    }
}
