// How the channels of a task are settled with those of a loop.
ghost use Rattle.std.specs.Prelude.{◌≡◌, ◌<◌, ◌^◌, length};
ghost use Rattle.turn_cell.specs.Passes.{IsPassOf, number, seen, mine};
ghost use Rattle.conn_parts.specs.Shares.{AreOwn, mine_at, seen_at};
ghost use Rattle.job_ends.specs.Settling.{AllSettled, AreTaskAt, GoOn, IsTaskAt, SettledAt};

use crate::settling::settle;
use flow_defs::ListOf;
use std::sync::Wait;
use turn_cell::{Pass, TurnCell, Turned};

// Settles a task's pass of the cell at a place with the loop's.
fn settle_at<S: Turned, R: Wait>(
    rt: &R,
    cells: &[TurnCell<S>],
    place: usize,
    pass: Pass<S>,
    loops: &mut ListOf<Pass<S>>,
)
    requires within { place < length cells.now }
    requires pass { IsTaskAt cells.now place pass }
    requires loops { AreOwn 1 cells.now loops.old.items }
    ensures loops { AreOwn 1 cells.now loops.new.items }
    ensures go_on { GoOn loops.old.items loops.new.items }
    ensures settled { SettledAt S.stands (mine pass) (seen pass) (mine_at place loops.old.items) (seen_at place loops.old.items) }
{
    let mut pass = pass;
    settle(
        rt,
        &cells[place],
        &mut pass,
        &mut loops.as_mut_slice()[place],
    );
}

/// Settles a task's passes of the cells at the places `first`, `first + stride` and so on with a loop's.
pub fn settle_channels<S: Turned, R: Wait>(
    rt: &R,
    cells: &[TurnCell<S>],
    first: usize,
    stride: usize,
    own: ListOf<Pass<S>>,
    loops: &mut ListOf<Pass<S>>,
)
    requires few { length cells.now < 2 ^ 32 }
    requires own { AreTaskAt cells.now first stride own.items }
    requires loops { AreOwn 1 cells.now loops.old.items }
    ensures loops { AreOwn 1 cells.now loops.new.items }
    ensures go_on { GoOn loops.old.items loops.new.items }
    ensures settled { AllSettled S.stands first stride own.items loops.old.items }
{
    let mut rest = own;
    'channels: while let Some(pass) = rest.pop() {
        let place = first + rest.as_slice().len() * stride;
        settle_at(rt, cells, place, pass, loops);
    }
}
