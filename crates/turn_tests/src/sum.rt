// A sum that is added to by turns.
ghost use Rattle.std.specs.Prelude.{◌≡◌, ◌%◌, ◌^◌, ◌++◌, [], ◌∷◌};
ghost use Rattle.std.specs.List.{sum_by};
ghost use Rattle.turn_cell.specs.Passes.{IsPassOf, mine, number};
ghost use Rattle.turn_cell.specs.Closing.{AreAll};

use flow_defs::ListOf;
use std::marker::Brand;
use std::sync::Wait;
use turn_cell::{Named, Pass, TurnCell, Turned};

/// The entry of one turn.
pub struct Added {
    pub amount: u64,
}

/// The sum, modulo 2^64.
#[derive(Drop)]
pub struct Sum {
    pub value: u64,
}

impl Turned for Sum {
    type Entry = Added;

    type Fixed = ();

    ghost stands = { λ sum history. sum.value ≡ sum_by (λ e. e.1.amount) history % 2 ^ 64 };

    ghost fixed = { λ _. tt };
}

impl Named<Added> for Brand {
    ghost entry = { record { amount = 1 } };
}

/// Adds one, in a turn.
pub fn add_one<R: Wait>(rt: &R, cell: &TurnCell<Sum>, pass: &mut Pass<Sum>)
    requires { IsPassOf cell.now pass.old }
    ensures pass { IsPassOf cell.now pass.new × (number pass.new ≡ number pass.old) }
    ensures entered { mine pass.new ≡ mine pass.old ++ record { amount = 1 } ∷ [] }
{
    let mut turn = cell.enter(rt, pass);
    let sum = turn.state();
    sum.value = sum.value.wrapping_add(1);
    turn.leave::<Brand>();
}

/// What all passes have added, together.
pub fn end(cell: TurnCell<Sum>, passes: ListOf<Pass<Sum>>) -> u64
    requires { AreAll cell passes.items }
    ensures { result ≡ sum_by (λ pass. sum_by (λ e. e.amount) (mine pass)) passes.items % 2 ^ 64 }
{
    cell.close(passes).value
}
