// How a pass comes to its turn.
// That a turn shows the very state that `new` got can't be said where it isn't `Clone`; it is said that it
// stands for the history. So a caller that goes on from the opening state isn't proved.
ghost use Rattle.std.specs.Prelude.{◌≡◌};
ghost use Rattle.turn_cell.specs.History.{StartsWith};
ghost use Rattle.turn_cell.specs.Passes.{IsPassOf, IsTurnOf, IsSamePass, IsStateOf, HasSighted, seen};

use crate::cell::TurnCell;
use crate::owned_turn::OwnedTurn;
use crate::pass::Pass;
use crate::steps::{bed_of, draw, look, take_out};
use crate::turn::Turn;
use crate::turned::Turned;
use std::hint::spin_loop;
use std::sync::Wait;

// How often a thread looks before it sleeps.
const LOOKS: u32 = 100;

// Waits for the pass's turn, and takes the state.
fn wait_for_turn<S: Turned, R: Wait>(rt: &R, cell: &TurnCell<S>, pass: &mut Pass<S>) -> S
    requires { IsPassOf cell.now pass.old }
    ensures turn { IsTurnOf cell.now pass.new × IsSamePass pass.old pass.new }
    ensures seen { StartsWith (seen pass.new) (seen pass.old) }
    ensures looked { HasSighted pass.old pass.new }
    ensures state { IsStateOf S.stands S.fixed cell.now (seen pass.new) result }
{
    let ticket = draw(cell, pass);
    let bed = bed_of(ticket);
    let mut looks = 0;
    for _ in rt.forever() {
        // Read before the look, so that a wake between the two is not missed.
        let stirred = cell.table.shared.peek(bed);
        if look(cell, pass) == ticket {
            return take_out(cell, pass);
        }
        if looks < LOOKS {
            looks += 1;
            spin_loop();
        } else {
            cell.table
                .shared
                .park(rt, bed, (stirred & 0xffff_ffff) as u32);
        }
    }
    unreachable!()
}

impl<S: Turned> TurnCell<S> {
    /// Waits for the pass's turn. The turn holds the pass until it is spent, by `leave` or `leave_as_is`.
    ///
    /// Turns come in the order in which tickets were drawn. A thread looks a hundred times for its
    /// turn and then sleeps; a turn that no other waits for makes no system call.
    pub fn enter<'a, R: Wait>(&'a self, rt: &R, pass: &'a mut Pass<S>) -> Turn<'a, S>
        requires { IsPassOf self.now pass.old }
        ensures turn { IsTurnOf result.cell.now result.pass.now × (result.cell.now ≡ self.now) }
        ensures pass { IsSamePass pass.old result.pass.now × (result.pass.ghost_name ≡ pass.entry.ghost_name) }
        ensures seen { StartsWith (seen result.pass.now) (seen pass.old) }
        ensures looked { HasSighted pass.old result.pass.now }
        ensures state { IsStateOf S.stands S.fixed result.cell.now (seen result.pass.now) result.state }
    {
        let state = wait_for_turn(rt, self, pass);
        Turn {
            cell: self,
            pass,
            state,
        }
    }

    /// The same for a state that holds references, beside which a turn can't borrow the pass. The turn
    /// takes the pass and hands it back when it is spent, and the state comes by value.
    pub fn enter_owned<'a, R: Wait>(&'a self, rt: &R, pass: Pass<S>) -> (S, OwnedTurn<'a, S>)
        requires { IsPassOf self.now pass }
        ensures turn { IsTurnOf result.1.cell.now result.1.pass × (result.1.cell.now ≡ self.now) }
        ensures pass { IsSamePass pass result.1.pass }
        ensures seen { StartsWith (seen result.1.pass) (seen pass) }
        ensures looked { HasSighted pass result.1.pass }
        ensures state { IsStateOf S.stands S.fixed result.1.cell.now (seen result.1.pass) result.0 }
    {
        let mut pass = pass;
        let state = wait_for_turn(rt, self, &mut pass);
        (state, OwnedTurn { cell: self, pass })
    }
}
