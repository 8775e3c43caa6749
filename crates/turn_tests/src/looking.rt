// Looks, and turns with no entry: what they answer, and loops of them for bench/turns.
ghost use Rattle.turn_cell.specs.Passes.{IsPassOf};

use crate::sum::{Sum, add_one};
use fixtures::deal;
use std::alloc::Global;
use std::sync::Wait;
use turn_cell::{Pass, TurnCell};

// What four looks answer: before any turn; after an entry of another; and after an entry of its own,
// by which it has seen both, while the other has seen one.
fn look_four_times<R: Wait>(
    rt: &R,
    cell: &TurnCell<Sum>,
    a: &mut Pass<Sum>,
    b: &mut Pass<Sum>,
) -> [bool; 4]
    requires { IsPassOf cell.now a.old × IsPassOf cell.now b.old }
    ensures { IsPassOf cell.now a.new × IsPassOf cell.now b.new }
{
    let new = cell.is_current(a);
    add_one(rt, cell, b);
    let behind = cell.is_current(a);
    add_one(rt, cell, a);
    [new, behind, cell.is_current(a), cell.is_current(b)]
}

/// Whether looks answer true where the pass has seen every entry, and false where it has not. None is
/// want of memory.
pub fn looks_tell<R: Wait>(rt: &R, alloc: Global) -> Option<bool> {
    let Ok((cell, mut passes)) = TurnCell::new(alloc, Sum { value: 0 }, 2) else {
        return None;
    };
    let mut b = deal(&cell, &mut passes);
    let mut a = deal(&cell, &mut passes);
    let answers = look_four_times(rt, &cell, &mut a, &mut b);
    Some(answers == [true, false, true, false])
}

// How many of so many looks found that the pass had seen all.
fn look_often(cell: &TurnCell<Sum>, pass: &mut Pass<Sum>, times: u64) -> u64
    requires { IsPassOf cell.now pass.old }
    ensures { IsPassOf cell.now pass.new }
{
    let mut found: u64 = 0;
    for _round in 0..times {
        if cell.is_current(pass) {
            found = found.wrapping_add(1);
        }
    }
    found
}

/// How many of so many looks found nothing new, where no other takes a turn.
pub fn look_alone(alloc: Global, times: u64) -> Option<u64> {
    let Ok((cell, mut passes)) = TurnCell::new(alloc, Sum { value: 0 }, 1) else {
        return None;
    };
    let mut pass = deal(&cell, &mut passes);
    Some(look_often(&cell, &mut pass, times))
}

// Takes so many turns, and makes no entry.
fn rest_often<R: Wait>(rt: &R, cell: &TurnCell<Sum>, pass: &mut Pass<Sum>, times: u64) -> u64
    requires { IsPassOf cell.now pass.old }
    ensures { IsPassOf cell.now pass.new }
{
    let mut sum: u64 = 0;
    for _round in 0..times {
        let mut turn = cell.enter(rt, pass);
        sum = turn.state().value;
        turn.leave_as_is();
    }
    sum
}

/// So many turns with no entry, by one thread alone.
pub fn rest_alone<R: Wait>(rt: &R, alloc: Global, times: u64) -> Option<u64> {
    let Ok((cell, mut passes)) = TurnCell::new(alloc, Sum { value: 0 }, 1) else {
        return None;
    };
    let mut pass = deal(&cell, &mut passes);
    Some(rest_often(rt, &cell, &mut pass, times))
}
