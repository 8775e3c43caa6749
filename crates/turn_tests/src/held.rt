// A state that holds a reference.
ghost use Rattle.std.specs.Prelude.{◌≡◌, []};
ghost use Rattle.turn_cell.specs.Passes.{IsPassOf, IsSamePass};

use crate::overlap::Never;
use std::sync::Wait;
use turn_cell::{Pass, TurnCell, Turned};

/// A number beside one that is borrowed.
pub struct Held<'a> {
    step: &'a u64,
    pub count: u64,
}

impl<'a> Turned for Held<'a> {
    type Entry = Never;

    type Fixed = ();

    ghost stands = { λ _ history. history ≡ [] };

    ghost fixed = { λ _. tt };
}

/// Adds the borrowed number to the other, in a turn that owns the pass.
pub fn add_step<'a, R: Wait>(
    rt: &R,
    cell: &TurnCell<Held<'a>>,
    pass: Pass<Held<'a>>,
) -> Pass<Held<'a>>
    requires { IsPassOf cell.now pass }
    ensures { IsPassOf cell.now result × IsSamePass pass.entry result }
{
    let (mut held, turn) = cell.enter_owned(rt, pass);
    held.count = held.count.wrapping_add(*held.step);
    turn.leave_as_is(held)
}

/// Adds it twice.
pub fn add_two_steps<'a, R: Wait>(
    rt: &R,
    cell: &TurnCell<Held<'a>>,
    pass: Pass<Held<'a>>,
) -> Pass<Held<'a>>
    requires { IsPassOf cell.now pass }
    ensures { IsPassOf cell.now result × IsSamePass pass.entry result }
{
    let pass = add_step(rt, cell, pass);
    add_step(rt, cell, pass)
}
