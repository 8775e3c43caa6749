// How a task that waits learns that another worker has met a fault.
ghost use Rattle.std.specs.Prelude.{◌≡◌, ◌≢◌, [], OnErr};
ghost use Rattle.turn_cell.specs.Passes.{IsPassOf, seen};
ghost use Rattle.record_writer.specs.Writers.{HasSeenFault};
ghost use Rattle.task_output.specs.Looking.{HasSentNoMore, IsSameLook, look_itself, look_twice, sent_itself, sent_twice};

use crate::TaskOutput;
use outside::{StopState, look_for_stop};
use std::marker::Model;
use std::sync::Wait;
use turn_cell::{Pass, TurnCell};

/// Another worker has met a fault.
#[derive(Clone, Copy, Debug, PartialEq, Eq)]
pub struct TaskStopped;

/// What a task that waits asks between two looks at what it waits for.
pub trait LooksForStop {
    /// Nothing but what was seen has changed.
    ghost still: { Self → Self → Type 0 };

    ghost still_itself: { (one : Self) → still one one };

    ghost still_twice: { (one two three : Self) → still one two → still two three → still one three };

    /// A fault was seen.
    ghost saw_stop: { Self → Type 0 };

    /// Looks whether another worker has met a fault.
    fn look_for_stop<R: Wait>(&mut self, rt: &R) -> Result<(), TaskStopped>
        ensures still { still self.old self.new }
        ensures stopped { OnErr result (saw_stop self.new) };
}

/// The cell that stops all workers, as a task looks at it that sends nothing.
#[derive(Drop)]
pub struct StopLook<'a> {
    cell: &'a TurnCell<StopState>,
    pass: Pass<StopState>,
}

impl<'a> Model for StopLook<'a> {
    ghost use Rattle.turn_cell.specs.Passes.{IsPassOf};
    ghost use Rattle.task_output.specs.Looking.{Look};

    ghost Value = { Look };

    ghost view = { λ l. record { cell = l.cell.now; pass = l.pass } };

    ghost invariant = { λ l. IsPassOf l.cell.now l.pass };
}

impl<'a> StopLook<'a> {
    pub fn new(cell: &'a TurnCell<StopState>, pass: Pass<StopState>) -> Self
        requires { IsPassOf cell.now pass }
        ensures { (result.cell ≡ cell.now) × (result.pass ≡ pass) }
    {
        StopLook { cell, pass }
    }

    pub fn into_pass(self) -> Pass<StopState>
        ensures { (result ≡ self.entry.pass) × IsPassOf self.entry.cell result }
    {
        let StopLook { cell: _, pass } = self;
        pass
    }
}

impl<'a> LooksForStop for StopLook<'a> {
    ghost still = { λ one two. IsSameLook one two };

    ghost still_itself = { look_itself };

    ghost still_twice = { look_twice };

    ghost saw_stop = { λ look. seen look.pass ≢ [] };

    fn look_for_stop<R: Wait>(&mut self, rt: &R) -> Result<(), TaskStopped>
        ensures still { IsSameLook self.old self.new }
        ensures stopped { OnErr result (seen self.new.pass ≢ []) }
    {
        match look_for_stop(rt, self.cell, &mut self.pass) {
            Some(_) => Err(TaskStopped),
            None => Ok(()),
        }
    }
}

impl<'a, 'p> LooksForStop for TaskOutput<'a, 'p> {
    ghost still = { λ one two. HasSentNoMore one two };

    ghost still_itself = { sent_itself };

    ghost still_twice = { sent_twice };

    ghost saw_stop = { λ out. HasSeenFault out.writer };

    fn look_for_stop<R: Wait>(&mut self, rt: &R) -> Result<(), TaskStopped>
        ensures still { HasSentNoMore self.old self.new }
        ensures stopped { OnErr result (HasSeenFault self.new.writer) }
    {
        self.look_at_stop(rt)
    }
}
