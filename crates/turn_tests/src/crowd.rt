// Threads that each have a cell of their own, and one that all share.
ghost use Rattle.std.specs.Prelude.{◌≡◌, ◌<◌, ◌≤◌};
ghost use Rattle.turn_cell.specs.Passes.{IsPassOf, number};
ghost use Rattle.turn_tests.specs.Crowds.{ArePassesOf, AreBack};

use crate::sum::{Sum, add_one, end};
use fixtures::give_back;
use flow_defs::ListOf;
use std::alloc::Global;
use std::sync::Wait;
use std::thread::{Threads, join};
use turn_cell::{Pass, TurnCell};

// Takes so many turns at a cell of its own, and one at the shared cell after each.
fn work<R: Wait>(
    rt: &R,
    alloc: Global,
    shared: &TurnCell<Sum>,
    pass: Pass<Sum>,
    times: u64,
) -> Pass<Sum>
    requires { IsPassOf shared.now pass }
    ensures { IsPassOf shared.now result × (number result ≡ number pass) }
{
    let Ok((own, mut passes)) = TurnCell::new(alloc, Sum { value: 0 }, 1) else {
        return pass;
    };
    let mut own_pass = passes.take_last();
    let mut pass = pass;
    for _round in 0..times {
        add_one(rt, &own, &mut own_pass);
        add_one(rt, shared, &mut pass);
    }
    give_back(&mut passes, own_pass);
    let _ = own.close(passes);
    pass
}

// Each pass works in a thread of its own, and comes back in its place.
fn work_all<R: Threads + Wait + Sync>(
    rt: &R,
    alloc: Global,
    shared: &TurnCell<Sum>,
    passes: ListOf<Pass<Sum>>,
    times: u64,
) -> ListOf<Pass<Sum>>
    requires { ArePassesOf shared.now passes.items }
    ensures back { AreBack shared.now passes.items result.items }
    ensures room { passes.room ≤ result.room }
{
    let mut rest = passes;
    let Some(pass) = rest.pop() else {
        return rest;
    };
    let (pass, mut rest) = join(
        rt,
        || -> Pass<Sum>
            requires { IsPassOf shared.now pass }
            ensures { IsPassOf shared.entry.now result × (number result ≡ number pass) }
        { work(rt, alloc, shared, pass, times) },
        || -> ListOf<Pass<Sum>>
            requires { ArePassesOf shared.now rest.items }
            ensures { AreBack shared.entry.now rest.items result.items × (rest.room ≤ result.room) }
        { work_all(rt, alloc, shared, rest, times) },
    );
    give_back(&mut rest, pass);
    rest
}

/// Takes turns in so many threads at once: so often at a cell of each thread's own, and as often at
/// one that all share. Returns what was added there. None is want of memory.
pub fn add_in_crowd<R: Threads + Wait + Sync>(
    rt: &R,
    alloc: Global,
    threads: u32,
    times: u64,
) -> Option<u64>
    requires { 0 < threads }
{
    let Ok((shared, passes)) = TurnCell::new(alloc, Sum { value: 0 }, threads) else {
        return None;
    };
    let passes = work_all(rt, alloc, &shared, passes, times);
    Some(end(shared, passes))
}
