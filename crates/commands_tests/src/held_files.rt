// Files whose two sources are read at once, or not at all.
ghost use Rattle.std.specs.Prelude.{None};

use outside::{Failed, Files, FindFault, Source};
use std::alloc::Global;
use std::hint::spin_loop;
use std::sync::atomic::{AtomicU64, Ordering};

/// The text of a job, and the sources `in` and `in2` of a line each. The first read of each source waits until that
/// of the other has begun, and fails after 100,000,000 looks.
#[derive(Drop)]
pub struct HeldFiles<'a> {
    job: &'a [u8],
    first: &'a AtomicU64,
    second: &'a AtomicU64,
    faults: u64,
    lent: u64,
}

impl<'a> HeldFiles<'a> {
    /// Both flags are 0.
    pub fn new(job: &'a [u8], first: &'a AtomicU64, second: &'a AtomicU64) -> Self {
        HeldFiles {
            job,
            first,
            second,
            faults: 0,
            lent: 0,
        }
    }
}

/// The flag that a source raises, and the one for which it then waits.
#[derive(Clone, Copy)]
struct Gate<'a> {
    own: &'a AtomicU64,
    other: &'a AtomicU64,
}

/// A file that was found.
#[derive(Drop)]
pub struct HeldInput<'a> {
    left: &'a [u8],
    gate: Option<Gate<'a>>,
    faults: u64,
}

fn is_raised(flag: &AtomicU64) -> bool {
    for _look in 0..100_000_000 {
        if flag.load(Ordering::SeqCst) == 1 {
            return true;
        }
        spin_loop();
    }
    false
}

// Raises its own flag, and tells whether the other one was raised.
fn pass(gate: Option<Gate<'_>>) -> bool {
    match gate {
        Some(gate) => {
            gate.own.store(1, Ordering::SeqCst);
            is_raised(gate.other)
        }
        None => true,
    }
}

impl Source for HeldInput<'_> {
    ghost left = { λ _. None };

    ghost faults = { λ s. s.faults };

    fn read(&mut self, room: &mut [u8]) -> Result<usize, Failed> {
        if !pass(self.gate) {
            self.faults = self.faults.saturating_add(1);
            return Err(Failed);
        }
        self.gate = None;
        let count = self.left.len().min(room.len());
        room[..count].copy_from_slice(&self.left[..count]);
        self.left = &self.left[count..];
        Ok(count)
    }
}

impl<'a> Files for HeldFiles<'a> {
    type Input = HeldInput<'a>;

    ghost contents = { λ _ _. None };

    ghost faults = { λ f. f.faults };

    ghost lent = { λ f. f.lent };

    fn find(&mut self, _alloc: Global, name: &str) -> Result<HeldInput<'a>, FindFault> {
        let Some(lent) = self.lent.checked_add(1) else {
            self.faults = self.faults.saturating_add(1);
            return Err(FindFault::Failed);
        };
        self.lent = lent;
        let (own, other) = (self.first, self.second);
        if name == "in" {
            Ok(HeldInput {
                left: b"a\n",
                gate: Some(Gate { own, other }),
                faults: 0,
            })
        } else if name == "in2" {
            Ok(HeldInput {
                left: b"b\n",
                gate: Some(Gate {
                    own: other,
                    other: own,
                }),
                faults: 0,
            })
        } else {
            Ok(HeldInput {
                left: self.job,
                gate: None,
                faults: 0,
            })
        }
    }

    fn back(&mut self, input: HeldInput<'a>) {
        self.lent = self.lent.saturating_sub(1);
        if input.faults > 0 {
            self.faults = self.faults.saturating_add(1);
        }
    }
}
