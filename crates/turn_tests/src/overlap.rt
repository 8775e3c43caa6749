// Turns on two cells at once.
ghost use Rattle.std.specs.Prelude.{◌≡◌, []};
ghost use Rattle.turn_cell.specs.Passes.{IsPassOf, number};

use fixtures::give_back;
use std::alloc::Global;
use std::hint::spin_loop;
use std::sync::Wait;
use std::sync::atomic::{AtomicU64, Ordering};
use std::thread::{Threads, join};
use turn_cell::{Pass, TurnCell, Turned};

/// An entry that no turn makes.
pub enum Never {}

/// A state of which nothing is told.
#[derive(Drop)]
pub struct Quiet;

impl Turned for Quiet {
    type Entry = Never;

    type Fixed = ();

    ghost stands = { λ _ history. history ≡ [] };

    ghost fixed = { λ _. tt };
}

/// Whether a flag is raised before it was looked at a hundred million times.
pub fn is_raised(flag: &AtomicU64) -> bool {
    for _look in 0..100_000_000 {
        if flag.load(Ordering::SeqCst) == 1 {
            return true;
        }
        spin_loop();
    }
    false
}

// Raises its flag inside its turn, and looks there for the other's.
fn hold<R: Wait>(
    rt: &R,
    cell: &TurnCell<Quiet>,
    pass: Pass<Quiet>,
    own: &AtomicU64,
    other: &AtomicU64,
) -> (Pass<Quiet>, bool)
    requires { IsPassOf cell.now pass }
    ensures { IsPassOf cell.now result.0 × (number result.0 ≡ number pass) }
{
    let mut pass = pass;
    let turn = cell.enter(rt, &mut pass);
    own.store(1, Ordering::SeqCst);
    let saw = is_raised(other);
    turn.leave_as_is();
    (pass, saw)
}

/// Whether two threads, each in a turn on a cell of its own, both saw the other in its turn. None is want of memory.
pub fn turns_overlap<R: Threads + Wait + Sync>(rt: &R, alloc: Global) -> Option<bool> {
    let Ok((one, mut ones)) = TurnCell::new(alloc, Quiet, 1) else {
        return None;
    };
    let Ok((two, mut twos)) = TurnCell::new(alloc, Quiet, 1) else {
        let _ = one.close(ones);
        return None;
    };
    let a = ones.take_last();
    let b = twos.take_last();
    let first = AtomicU64::new(0);
    let second = AtomicU64::new(0);
    let ((a, saw_second), (b, saw_first)) = join(
        rt,
        || -> (Pass<Quiet>, bool)
            requires { IsPassOf one a }
            ensures { IsPassOf one result.0 × (number result.0 ≡ number a) }
        { hold(rt, &one, a, &first, &second) },
        || -> (Pass<Quiet>, bool)
            requires { IsPassOf two b }
            ensures { IsPassOf two result.0 × (number result.0 ≡ number b) }
        { hold(rt, &two, b, &second, &first) },
    );
    give_back(&mut ones, a);
    give_back(&mut twos, b);
    let _ = one.close(ones);
    let _ = two.close(twos);
    Some(saw_first && saw_second)
}
