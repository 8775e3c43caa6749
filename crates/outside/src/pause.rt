// How a loop that found nothing to do waits.
// A pause sleeps by a `Parker` that nobody unparks, since a loop isn't handed a clock.

use crossbeam_utils::Backoff;
use std::sync::Wait;
use std::thread::Parker;
use std::time::Duration;

// How many rounds spin or yield before the first sleep, and how often each.
const ROUNDS: u32 = 128;

const YIELDS: u32 = 2;

// The same where a bell is rung.
const BELL_ROUNDS: u32 = 32;

// The first time of a sleep, the longest of the first `EAGER` in a row, and the longest, in microseconds.
const SHORTEST: u64 = 5;

const SHORT: u64 = 100;

const LONGEST: u64 = 4000;

const EAGER: u32 = 64;

// The longest time of a sleep that a bell ends.
const UNHEARD: u64 = 50_000;

/// How many pauses lie between two looks of a loop at cells that have no news. What has no entry is found
/// then.
pub const PAUSES: u32 = 64;

/// The pauses of a loop that waits for others: at first it spins, then for some rounds it yields, and after
/// them it sleeps, at first for a tenth of a millisecond at most, and later for longer and longer, up to four
/// milliseconds.
///
/// A sleep takes some 50 microseconds at least, whatever it is asked for, so what comes soon should be
/// found before it. A round yields more than once, since where a loop looks by turns others wait for them.
#[derive(Drop)]
pub struct Pause {
    rounds: u32,
    backoff: Backoff,
    parker: Parker,
    sleeps: u32,
    micros: u64,
}

impl Pause {
    pub fn new() -> Self {
        Pause {
            rounds: 0,
            backoff: Backoff::new(),
            parker: Parker::new(),
            sleeps: 0,
            micros: SHORTEST,
        }
    }

    /// Begins anew, after a round that found something to do.
    pub fn reset(&mut self) {
        self.rounds = 0;
        self.backoff.reset();
        self.sleeps = 0;
        self.micros = SHORTEST;
    }

    /// Pauses once, after a round that found nothing to do.
    pub fn wait<R: Wait>(&mut self, rt: &R) {
        if self.rounds < ROUNDS {
            self.rounds += 1;
            self.yield_some();
            return;
        }
        self.parker
            .park_timeout(rt, Duration::from_micros(self.micros));
        self.lengthen();
    }

    /// The same where a thread that has something for the loop rings this bell: behind a few rounds it
    /// sleeps until that, or for fifty milliseconds. One loop alone may wait for a bell.
    pub fn wait_for<R: Wait>(&mut self, rt: &R, bell: &Parker) {
        if self.rounds < BELL_ROUNDS {
            self.rounds += 1;
            self.yield_some();
            return;
        }
        bell.park_timeout(rt, Duration::from_micros(UNHEARD));
    }

    fn yield_some(&mut self) {
        for _yield in 0..YIELDS {
            self.backoff.snooze();
        }
    }

    // Makes the next sleep twice as long, within the bounds.
    fn lengthen(&mut self) {
        let longest = if self.sleeps < EAGER { SHORT } else { LONGEST };
        self.sleeps = self.sleeps.saturating_add(1);
        self.micros = self.micros.saturating_mul(2).min(longest);
    }
}
