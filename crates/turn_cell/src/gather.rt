// How a pass takes in others, learns the history, and releases them.
ghost use Rattle.std.specs.Prelude.{◌≡◌, [], ◌∷◌};
ghost use Rattle.turn_cell.specs.Rule.{released};
ghost use Rattle.turn_cell.specs.Passes.{IsPassOf, IsSamePass, seen, sights};
ghost use Rattle.turn_cell.specs.Steps.{IsIdle, IsAsBefore, HasLearnt, IsCounted, gathered, past_of};

use crate::cell::TurnCell;
use crate::pass::Pass;
use crate::rule::{Gather, LayOff, Meet, NEWS, Release};
use crate::turned::Turned;

// Takes the seat out of a pass, in whose place one is left that knows nothing.
pub(crate) fn lay_off<S: Turned>(cell: &TurnCell<S>, pass: &mut Pass<S>) -> Pass<S>
    requires { IsPassOf cell.now pass.old }
    ensures { IsPassOf cell.now result × IsAsBefore pass.old result }
{
    let seat = cell.table.shared.split_seat::<LayOff>(&mut pass.seat);
    Pass {
        number: pass.number,
        entries: pass.entries,
        seat,
    }
}

// Takes in another pass.
pub(crate) fn gather<S: Turned>(cell: &TurnCell<S>, pass: &mut Pass<S>, other: Pass<S>)
    requires { IsIdle cell.now pass.old × IsPassOf cell.now other }
    ensures pass { IsIdle cell.now pass.new × IsAsBefore pass.old pass.new }
    ensures other { gathered pass.new ≡ past_of other ∷ gathered pass.old }
{
    cell.table
        .shared
        .join_seat::<Gather>(&mut pass.seat, other.into_seat());
}

// Learns the history now.
pub(crate) fn learn<S: Turned>(cell: &TurnCell<S>, pass: &mut Pass<S>)
    requires { IsIdle cell.now pass.old }
    ensures pass { IsIdle cell.now pass.new × IsSamePass pass.old pass.new × (gathered pass.new ≡ gathered pass.old) }
    ensures counted { IsCounted pass.new × (sights pass.new ≡ sights pass.old) }
    ensures history { HasLearnt pass.old pass.new }
{
    pass.entries = cell.table.shared.load::<Meet>(&mut pass.seat, NEWS);
}

// Releases the only pass that was taken in.
pub(crate) fn release<S: Turned>(cell: &TurnCell<S>, pass: &mut Pass<S>, number: u32) -> Pass<S>
    requires { IsIdle cell.now pass.old × ((p : _) × (gathered pass.old ≡ p ∷ [])) }
    ensures pass { IsIdle cell.now pass.new × IsAsBefore pass.old pass.new × (gathered pass.new ≡ []) }
    ensures entries { (pass.new.entries ≡ pass.old.entries) × (result.entries ≡ pass.old.entries) }
    ensures other { (result.seat.table_id ≡ cell.now.table.shared.table_id) × (result.seat.me ≡ (released pass.old.seat.me.0.about (seen pass.old) (gathered pass.old), [])) }
{
    let seat = cell.table.shared.split_seat::<Release>(&mut pass.seat);
    Pass {
        number,
        entries: pass.entries,
        seat,
    }
}
