// A sum that several threads add to.
ghost use Rattle.std.specs.Prelude.{◌≡◌, ◌*◌, ◌%◌, ◌^◌, IfSome};
ghost use Rattle.turn_cell.specs.Passes.{IsPassOf};
ghost use Rattle.turn_tests.specs.Sums.{HasAdded};

use crate::sum::{Sum, add_one, end};
use fixtures::give_back;
use std::alloc::Global;
use std::sync::Wait;
use std::thread::{Threads, join};
use turn_cell::{Pass, TurnCell};

fn add_many<R: Wait>(rt: &R, cell: &TurnCell<Sum>, pass: Pass<Sum>, times: u64) -> Pass<Sum>
    requires { IsPassOf cell.now pass }
    ensures { HasAdded cell.now times pass result }
{
    let mut pass = pass;
    for _round in 0..times {
        add_one(rt, cell, &mut pass);
    }
    pass
}

// Each of the two passes adds so often, in a thread of its own.
fn add_in_two<R: Threads + Wait + Sync>(
    rt: &R,
    cell: &TurnCell<Sum>,
    first: Pass<Sum>,
    second: Pass<Sum>,
    times: u64,
) -> (Pass<Sum>, Pass<Sum>)
    requires { IsPassOf cell.now first × IsPassOf cell.now second }
    ensures { HasAdded cell.now times first result.0 × HasAdded cell.now times second result.1 }
{
    join(
        rt,
        || -> Pass<Sum>
            requires { IsPassOf cell.now first }
            ensures { HasAdded cell.entry.now times first result }
        { add_many(rt, cell, first, times) },
        || -> Pass<Sum>
            requires { IsPassOf cell.now second }
            ensures { HasAdded cell.entry.now times second result }
        { add_many(rt, cell, second, times) },
    )
}

/// What two threads add, one so often each. None is want of memory.
pub fn add_by_two<R: Threads + Wait + Sync>(rt: &R, alloc: Global, times: u64) -> Option<u64>
    ensures { IfSome result (λ sum. sum ≡ 2 * times % 2 ^ 64) }
{
    let Ok((cell, mut passes)) = TurnCell::new(alloc, Sum { value: 0 }, 2) else {
        return None;
    };
    let b = passes.take_last();
    let a = passes.take_last();
    let (a, b) = add_in_two(rt, &cell, a, b, times);
    give_back(&mut passes, a);
    give_back(&mut passes, b);
    Some(end(cell, passes))
}

/// What four threads add, one so often each. None is want of memory.
pub fn add_by_four<R: Threads + Wait + Sync>(rt: &R, alloc: Global, times: u64) -> Option<u64>
    ensures { IfSome result (λ sum. sum ≡ 4 * times % 2 ^ 64) }
{
    let Ok((cell, mut passes)) = TurnCell::new(alloc, Sum { value: 0 }, 4) else {
        return None;
    };
    let d = passes.take_last();
    let c = passes.take_last();
    let b = passes.take_last();
    let a = passes.take_last();
    let ((a, b), (c, d)) = join(
        rt,
        || -> (Pass<Sum>, Pass<Sum>)
            requires { IsPassOf cell a × IsPassOf cell b }
            ensures { HasAdded cell times a result.0 × HasAdded cell times b result.1 }
        { add_in_two(rt, &cell, a, b, times) },
        || -> (Pass<Sum>, Pass<Sum>)
            requires { IsPassOf cell c × IsPassOf cell d }
            ensures { HasAdded cell times c result.0 × HasAdded cell times d result.1 }
        { add_in_two(rt, &cell, c, d, times) },
    );
    give_back(&mut passes, a);
    give_back(&mut passes, b);
    give_back(&mut passes, c);
    give_back(&mut passes, d);
    Some(end(cell, passes))
}

/// What one pass adds alone, one so often. None is want of memory.
pub fn add_by_one<R: Wait>(rt: &R, alloc: Global, times: u64) -> Option<u64>
    ensures { IfSome result (λ sum. sum ≡ times % 2 ^ 64) }
{
    let Ok((cell, mut passes)) = TurnCell::new(alloc, Sum { value: 0 }, 1) else {
        return None;
    };
    let pass = passes.take_last();
    let pass = add_many(rt, &cell, pass, times);
    give_back(&mut passes, pass);
    Some(end(cell, passes))
}
