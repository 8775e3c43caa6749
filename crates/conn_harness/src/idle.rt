// How a task waits that finds nothing to do.
ghost use Rattle.turn_cell.specs.Passes.{IsPassOf};

use outside::{Pause, StopState, look_for_stop};
use std::sync::Wait;
use turn_cell::{Pass, TurnCell};

// How many pauses lie between two looks at the stop cell.
const PAUSES: u32 = 16;

/// The rounds of a task in which it found nothing to do on a channel.
#[derive(Drop)]
pub struct Idle {
    misses: usize,
    pauses: u32,
    pause: Pause,
}

impl Idle {
    pub fn new() -> Self {
        Idle {
            misses: 0,
            pauses: 0,
            pause: Pause::new(),
        }
    }

    /// A round found something.
    pub fn found(&mut self) {
        self.misses = 0;
        self.pause.reset();
    }

    /// A round found nothing on a channel beside which there are so many others. After as many in a row as
    /// there are channels it pauses, and now and then it looks at the stop cell before. Answers whether
    /// there is an entry.
    pub fn missed<R: Wait>(
        &mut self,
        rt: &R,
        others: usize,
        stop: &TurnCell<StopState>,
        pass: &mut Pass<StopState>,
    ) -> bool
        requires { IsPassOf stop.now pass.old }
        ensures { IsPassOf stop.now pass.new }
    {
        self.misses = self.misses.wrapping_add(1);
        if self.misses <= others {
            return false;
        }
        self.misses = 0;
        self.pauses = self.pauses.wrapping_add(1);
        if self.pauses % PAUSES == 0 && look_for_stop(rt, stop, pass).is_some() {
            return true;
        }
        self.pause.wait(rt);
        false
    }
}
