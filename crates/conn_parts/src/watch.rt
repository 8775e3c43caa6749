// When a loop looks at the stop cell.
ghost use Rattle.std.specs.Prelude.{◌≡◌, true, false, None};
ghost use Rattle.turn_cell.specs.History.{StartsWith};
ghost use Rattle.turn_cell.specs.Passes.{IsPassOf, IsSamePass, seen};
ghost use Rattle.outside.specs.Stops.{first_met};

use flow_defs::Cause;
use outside::{StopState, look_for_stop};
use std::marker::Model;
use std::sync::Wait;
use turn_cell::{Pass, TurnCell};

/// Says in which rounds of a loop it looks at the stop cell: in the first, and after it where the cell has
/// news. A look is a turn at a cell that all workers share, so one in each round would make them wait for
/// each other.
#[derive(Drop)]
pub struct Watch {
    has_looked: bool,
}

impl Model for Watch {
    ghost use Rattle.std.specs.Prelude.{Bool};

    ghost Value = { Bool };

    ghost view = { λ w. w.has_looked };
}

impl Watch {
    /// Before the first round. Contracts see of it whether it has looked.
    pub fn new() -> Self
        ensures { result ≡ false }
    {
        Watch { has_looked: false }
    }

    /// Looks at the stop cell where it is time, and answers the first fault that the pass has seen there.
    /// The pass makes no turn between looks, and the loop ends once there is a fault.
    pub fn look<R: Wait>(
        &mut self,
        rt: &R,
        cell: &TurnCell<StopState>,
        pass: &mut Pass<StopState>,
    ) -> Option<Cause>
        requires pass { IsPassOf cell.now pass.old }
        requires calm { self.old ≡ true → first_met (seen pass.old) ≡ None }
        ensures looked { self.new ≡ true }
        ensures pass { IsPassOf cell.now pass.new × IsSamePass pass.old pass.new }
        ensures seen { StartsWith (seen pass.new) (seen pass.old) }
        ensures answer { result ≡ first_met (seen pass.new) }
    {
        if self.has_looked && !cell.has_news(pass) {
            return None;
        }
        self.has_looked = true;
        look_for_stop(rt, cell, pass)
    }
}
