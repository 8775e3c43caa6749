// Reads the lines of a script's events, one by one.
ghost use Rattle.std.specs.Prelude.{◌≡◌, ◌<◌, ◌^◌, ◌+◌, length, IfOk, IfErr};

use crate::ScriptFault;
use crate::lines::{EventLine, event_of, next_line};

// What is left of a script's text behind its first line.
#[derive(Drop)]
pub(crate) struct EventLines<'a> {
    rest: &'a [u8],
    // The number of the next line.
    number: u64,
    channels: u32,
    ghost counted: { number + length rest.now < 2 ^ 64 },
}

impl<'a> EventLines<'a> {
    ghost use Rattle.script_text.specs.Reading.{bad_left, IsTold, TakesOrEnds};

    // Stands before these lines, the first of which is the text's second.
    pub fn of(rest: &'a [u8], channels: u32) -> Self
        ensures rest { result.rest.now ≡ rest.now }
        ensures number { result.number ≡ 2 }
        ensures channels { result.channels ≡ channels }
    {
        EventLines {
            rest,
            number: 2,
            channels,
        }
    }

    // Takes the next line, if there is one. It is not called again behind a bad one.
    pub fn next(&mut self) -> Result<Option<EventLine<'a>>, ScriptFault>
        ensures ok { IfOk result (TakesOrEnds self.old self.new) }
        ensures err { IfErr result (λ told. IsTold told (bad_left self.old)) }
    {
        let Some((text, rest)) = next_line(self.rest) else {
            return Ok(None);
        };
        let Some(line) = event_of(text, self.channels) else {
            return Err(ScriptFault::Line { line: self.number });
        };
        self.rest = rest;
        self.number += 1;
        Ok(Some(line))
    }
}
