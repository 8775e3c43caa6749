// A turn at a cell.
// A turn can't keep it as a ghost field that it is one of its cell, so `leave` asks for it.
ghost use Rattle.std.specs.Prelude.{◌≡◌, [], ◌∷◌, ◌++◌};
ghost use Rattle.std.specs.Borrow.{sem, follows};
ghost use mir.Syntax.{named};
ghost use Rattle.turn_cell.specs.contracts.turn.Turn.{the_row};
ghost use Rattle.turn_cell.specs.Lending.{with_state};
ghost use Rattle.turn_cell.specs.Passes.{IsPassOf, IsTurnOf, IsStateOf, HasEntered, HasRested, number, seen};

use crate::cell::TurnCell;
use crate::pass::Pass;
use crate::steps::{advance, put_in, record, wake_next};
use crate::turned::{Named, Turned};

/// A turn. It is spent by `leave` or `leave_as_is`, and by nothing else.
pub struct Turn<'a, S: Turned> {
    pub(crate) cell: &'a TurnCell<S>,
    pub(crate) pass: &'a mut Pass<S>,
    pub(crate) state: S,
}

// Puts the state back, with the entry of E.
pub(crate) fn put_back<S: Turned, E: Named<S::Entry>>(
    cell: &TurnCell<S>,
    pass: &mut Pass<S>,
    state: S,
)
    requires turn { IsTurnOf cell.now pass.old }
    requires state { IsStateOf S.stands S.fixed cell.now (seen pass.old ++ (number pass.old, E.entry) ∷ []) state }
    ensures pass { IsPassOf cell.now pass.new }
    ensures entered { HasEntered E.entry pass.old pass.new }
{
    record::<S, E>(cell, pass);
    put_back_as_is(cell, pass, state);
}

// Puts the state back, with no entry.
pub(crate) fn put_back_as_is<S: Turned>(cell: &TurnCell<S>, pass: &mut Pass<S>, state: S)
    requires turn { IsTurnOf cell.now pass.old }
    requires state { IsStateOf S.stands S.fixed cell.now (seen pass.old) state }
    ensures pass { IsPassOf cell.now pass.new }
    ensures rested { HasRested pass.old pass.new }
{
    put_in(cell, pass, state);
    let served = advance(cell, pass);
    wake_next(cell, pass, served);
}

impl<'a, S: Turned> Turn<'a, S> {
    /// The state.
    pub fn state(&mut self) -> &mut S
        ensures* writes_back { sem 𝓛 (follows (the_row (record { mir = named 1; lft = [] }) S.row S.Entry.row S.Fixed.row S.Turned) S.row self.entry.ghost_name result.ghost_name (with_state self.old)) }
        ensures value { result.now ≡ self.old.state }
    {
        &mut self.state
    }

    /// Ends the turn with the entry of E, in constant time. Takes no memory.
    pub fn leave<E: Named<S::Entry>>(self)
        requires turn { IsTurnOf self.cell.now self.pass.now }
        requires state { IsStateOf S.stands S.fixed self.cell.now (seen self.pass.now ++ (number self.pass.now, E.entry) ∷ []) self.state }
        ensures pass { IsPassOf self.entry.cell.now self.exit.1.0.now }
        ensures entered { HasEntered E.entry self.entry.pass.now self.exit.1.0.now }
    {
        let Turn { cell, pass, state } = self;
        put_back::<S, E>(cell, pass, state);
    }

    /// Ends the turn with no entry, in constant time. Takes no memory.
    pub fn leave_as_is(self)
        requires turn { IsTurnOf self.cell.now self.pass.now }
        requires state { IsStateOf S.stands S.fixed self.cell.now (seen self.pass.now) self.state }
        ensures pass { IsPassOf self.entry.cell.now self.exit.1.0.now }
        ensures rested { HasRested self.entry.pass.now self.exit.1.0.now }
    {
        let Turn { cell, pass, state } = self;
        put_back_as_is(cell, pass, state);
    }
}
