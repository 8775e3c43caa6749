// A turn that has its pass.
ghost use Rattle.std.specs.Prelude.{[], ◌∷◌, ◌++◌};
ghost use Rattle.turn_cell.specs.Passes.{IsPassOf, IsTurnOf, IsStateOf, HasEntered, HasRested, number, seen};

use crate::cell::TurnCell;
use crate::pass::Pass;
use crate::turn::{put_back, put_back_as_is};
use crate::turned::{Named, Turned};

/// A turn that has its pass, and whose state is in the hands of the caller. It is spent by `leave` or
/// `leave_as_is`, and by nothing else.
pub struct OwnedTurn<'a, S: Turned> {
    pub(crate) cell: &'a TurnCell<S>,
    pub(crate) pass: Pass<S>,
}

impl<'a, S: Turned> OwnedTurn<'a, S> {
    /// Ends the turn with this state and the entry of E, and hands the pass back. Takes no memory.
    pub fn leave<E: Named<S::Entry>>(self, state: S) -> Pass<S>
        requires turn { IsTurnOf self.cell.now self.pass }
        requires state { IsStateOf S.stands S.fixed self.cell.now (seen self.pass ++ (number self.pass, E.entry) ∷ []) state }
        ensures pass { IsPassOf self.entry.cell.now result }
        ensures entered { HasEntered E.entry self.entry.pass result }
    {
        let OwnedTurn { cell, pass } = self;
        let mut pass = pass;
        put_back::<S, E>(cell, &mut pass, state);
        pass
    }

    /// Ends the turn with this state and no entry, and hands the pass back. Takes no memory.
    pub fn leave_as_is(self, state: S) -> Pass<S>
        requires turn { IsTurnOf self.cell.now self.pass }
        requires state { IsStateOf S.stands S.fixed self.cell.now (seen self.pass) state }
        ensures pass { IsPassOf self.entry.cell.now result }
        ensures rested { HasRested self.entry.pass result }
    {
        let OwnedTurn { cell, pass } = self;
        let mut pass = pass;
        put_back_as_is(cell, &mut pass, state);
        pass
    }
}
