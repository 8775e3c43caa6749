// How a cell is closed.
// It takes the passes in order, since what it says would else have to speak of permutations.
ghost use Rattle.std.specs.Prelude.{◌≡◌, ℕ};
ghost use mathlib.Core.Option as may;
ghost use lib.ListN.{get_elem?};
ghost use Rattle.turn_cell.specs.Rule.{Has};
ghost use Rattle.turn_cell.specs.Passes.{IsPassOf};
ghost use Rattle.turn_cell.specs.Closing.{AreAll, IsWhole};
ghost use Rattle.turn_cell.specs.Steps.{IsIdle, IsAsBefore, gathered, past_of};

use crate::cell::TurnCell;
use crate::gather::gather;
use crate::pass::Pass;
use crate::turned::Turned;
use flow_defs::ListOf;

// The pass takes in all others.
fn gather_all<S: Turned>(cell: &TurnCell<S>, pass: &mut Pass<S>, others: ListOf<Pass<S>>)
    requires pass { IsIdle cell.now pass.old }
    requires others { (k : ℕ) (p : _) → get_elem? others.items k ≡ may.some p → IsPassOf cell.now p }
    ensures same { IsIdle cell.now pass.new × IsAsBefore pass.old pass.new }
    ensures all { (p : _) → Has p others.items → Has (past_of p) (gathered pass.new) }
{
    let mut others = others;
    while let Some(other) = others.pop() {
        gather(cell, pass, other);
    }
}

impl<S: Turned> TurnCell<S> {
    /// Ends the cell, with all its passes in the order of their numbers, and hands the state back.
    /// Takes no memory, and time in the number of passes.
    pub fn close(self, passes: ListOf<Pass<S>>) -> S
        requires { AreAll self passes.items }
        ensures { IsWhole S.stands S.fixed self passes.items result }
    {
        let mut others = passes;
        let mut last = others.pop().unwrap();
        gather_all(&self, &mut last, others);
        let mut closed = self.into_table().close_with(last.into_seat());
        let slot = closed.take(0);
        closed.free();
        slot.unwrap()
    }
}
