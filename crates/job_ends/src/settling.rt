// How two passes of a cell are compared once both are at rest.
ghost use Rattle.std.specs.Prelude.{◌≡◌};
ghost use Rattle.turn_cell.specs.History.{StartsWith};
ghost use Rattle.turn_cell.specs.Passes.{IsPassOf, IsSamePass, seen};
ghost use Rattle.job_ends.specs.Settling.{HaveSettled, StandsForSome};

use std::sync::Wait;
use turn_cell::{Pass, TurnCell, Turned};

// Looks at a cell in a turn.
fn look<S: Turned, R: Wait>(rt: &R, cell: &TurnCell<S>, pass: &mut Pass<S>)
    requires { IsPassOf cell.now pass.old }
    ensures pass { IsPassOf cell.now pass.new × IsSamePass pass.old pass.new }
    ensures later { StartsWith (seen pass.new) (seen pass.old) }
    ensures stands { StandsForSome S.stands (seen pass.new) }
{
    let turn = cell.enter(rt, pass);
    turn.leave_as_is();
}

/// Lets two passes of a cell compare what they have seen, at a turn of one of them. It takes constant time
/// where no other waits for a turn.
pub fn settle<S: Turned, R: Wait>(rt: &R, cell: &TurnCell<S>, a: &mut Pass<S>, b: &mut Pass<S>)
    requires { IsPassOf cell.now a.old × IsPassOf cell.now b.old }
    ensures passes { IsPassOf cell.now a.new × IsPassOf cell.now b.new }
    ensures same { IsSamePass a.old a.new × IsSamePass b.old b.new }
    ensures later { StartsWith (seen a.new) (seen a.old) × StartsWith (seen b.new) (seen b.old) }
    ensures settled { HaveSettled S.stands a.old b.old }
{
    cell.meet(a, b);
    look(rt, cell, a);
    cell.meet(a, b);
}
