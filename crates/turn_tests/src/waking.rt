// A turn that another thread sleeps for.
ghost use Rattle.turn_cell.specs.Passes.{IsPassOf};

use crate::overlap::{Quiet, is_raised};
use fixtures::deal;
use std::alloc::Global;
use std::hint::spin_loop;
use std::sync::Wait;
use std::sync::atomic::{AtomicU64, Ordering};
use std::thread::{Threads, join};
use turn_cell::{Pass, TurnCell};

// How often a thread spins in its turn: longer than another looks for its own before it sleeps.
const SPINS: u32 = 2_000_000;

// Stays in its turn until the other has asked for one, and longer.
fn stay<R: Wait>(
    rt: &R,
    cell: &TurnCell<Quiet>,
    pass: Pass<Quiet>,
    stays: &AtomicU64,
    asks: &AtomicU64,
) -> bool
    requires { IsPassOf cell.now pass }
{
    let mut pass = pass;
    let turn = cell.enter(rt, &mut pass);
    stays.store(1, Ordering::SeqCst);
    let asked = is_raised(asks);
    for _spin in 0..SPINS {
        spin_loop();
    }
    turn.leave_as_is();
    asked
}

// Asks for a turn while the other stays in its own.
fn ask<R: Wait>(
    rt: &R,
    cell: &TurnCell<Quiet>,
    pass: Pass<Quiet>,
    stays: &AtomicU64,
    asks: &AtomicU64,
) -> bool
    requires { IsPassOf cell.now pass }
{
    let mut pass = pass;
    let stayed = is_raised(stays);
    asks.store(1, Ordering::SeqCst);
    let turn = cell.enter(rt, &mut pass);
    turn.leave_as_is();
    stayed
}

/// Whether a thread asked for a turn while another stayed in its own, and so slept, before both came through.
/// None is want of memory.
pub fn sleep_and_wake<R: Threads + Wait + Sync>(rt: &R, alloc: Global) -> Option<bool> {
    let Ok((cell, mut passes)) = TurnCell::new(alloc, Quiet, 2) else {
        return None;
    };
    let b = deal(&cell, &mut passes);
    let a = deal(&cell, &mut passes);
    let stays = AtomicU64::new(0);
    let asks = AtomicU64::new(0);
    let (asked, stayed) = join(
        rt,
        || -> bool
            requires { IsPassOf cell a }
        { stay(rt, &cell, a, &stays, &asks) },
        || -> bool
            requires { IsPassOf cell b }
        { ask(rt, &cell, b, &stays, &asks) },
    );
    Some(asked && stayed)
}
