// The task's end of a channel on which it puts.
ghost use Rattle.std.specs.Prelude.{◌≡◌, [], false};
ghost use Rattle.turn_cell.specs.Passes.{IsPassOf, mine, number};
ghost use Rattle.subpartition.specs.Sending.{is_finished};

use fixtures::{finish_in_turn, put_in_turn};
use std::sync::Wait;
use subpartition::{Filled, Subpartition};
use turn_cell::{Pass, TurnCell};

/// The task's end of a channel, on which buffers are put and at last the end.
#[derive(Drop)]
pub struct Outlet<'a> {
    cell: &'a TurnCell<Subpartition>,
    pass: Pass<Subpartition>,
    ghost of_cell: { IsPassOf cell.now pass },
    ghost of_task: { number pass ≡ 0 },
    ghost open_end: { is_finished (mine pass) ≡ false },
}

impl<'a> Outlet<'a> {
    /// An end on which nothing was put.
    pub fn new(cell: &'a TurnCell<Subpartition>, pass: Pass<Subpartition>) -> Self
        requires { IsPassOf cell.now pass × (number pass ≡ 0) × (mine pass ≡ []) }
    {
        Outlet { cell, pass }
    }

    /// Puts a buffer, or hands it back where there is no room or its segment has another length.
    pub fn put<R: Wait>(self, rt: &R, filled: Filled) -> (Outlet<'a>, Result<(), Filled>) {
        let Outlet { cell, mut pass } = self;
        let done = put_in_turn(rt, cell, &mut pass, filled);
        (Outlet { cell, pass }, done)
    }

    /// Puts the end, or answers this outlet where there is no room.
    pub fn finish<R: Wait>(self, rt: &R) -> Option<Outlet<'a>> {
        let Outlet { cell, mut pass } = self;
        if finish_in_turn(rt, cell, &mut pass) {
            None
        } else {
            Some(Outlet { cell, pass })
        }
    }
}
