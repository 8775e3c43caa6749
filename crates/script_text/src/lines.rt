// What each line of a script's text says. Nothing here takes memory.
ghost use Rattle.std.specs.Prelude.{◌≡◌, ℕ, ◌<◌, ◌≤◌, ◌^◌, ◌+◌, ◌∷◌, Some, None, [], length, IfOk, IfErr, IfSome, IfNone, option_map};
ghost use Rattle.flow_defs.specs.Lines.{lines};
ghost use Rattle.script_text.specs.Reading.{Opens, IsTold, bad_line, cut, kind_of, barrier_event, told_event, bare_event, channel_event, long_event, event_of, opening_of};

use crate::spelling::{cut_word, is, is_text, long_number_of, number_of};
use crate::{CHANNELS_MAX, Event, FILL_MAX, SIZE_MAX, SIZE_MIN, ScriptFault, TOTAL_MAX};
use flow_defs::{BarrierKind, cut_line};

// What the first line of a script says.
#[derive(Clone, Copy)]
pub(crate) struct Opening {
    pub channels: u32,
    pub size: u32,
    pub total: u32,
}

// What a line of an event says. A record's text still stands in the script.
#[derive(Drop)]
pub(crate) enum EventLine<'a> {
    Emit { c: u32, text: &'a [u8] },
    Other { event: Event },
}

// Reads the first line of a script, and gives what follows it.
pub(crate) fn open(text: &[u8]) -> Result<(Opening, &[u8]), ScriptFault>
    ensures ok { IfOk result (λ read. Opens text.now read.0 read.1.now) }
    ensures err { IfErr result (λ told. IsTold told (bad_line (lines text.now))) }
{
    let Some((line, rest)) = next_line(text) else {
        return Err(ScriptFault::Line { line: 1 });
    };
    let Some(opening) = opening_of(line) else {
        return Err(ScriptFault::Line { line: 1 });
    };
    Ok((opening, rest))
}

// What the line opens, if it opens an exchange.
fn opening_of(line: &[u8]) -> Option<Opening>
    ensures { result ≡ opening_of line.now }
{
    let (word, rest) = cut_word(line);
    let (channels, rest) = cut_word(rest?);
    let (size, total) = cut_word(rest?);
    let total = total?;
    if !is(word, "open") {
        return None;
    }
    Some(Opening {
        channels: number_of(channels, 1, CHANNELS_MAX)?,
        size: number_of(size, SIZE_MIN, SIZE_MAX)?,
        total: number_of(total, 1, TOTAL_MAX)?,
    })
}

// The event of a line in an exchange of so many channels, if it is one's.
pub(crate) fn event_of(line: &[u8], channels: u32) -> Option<EventLine<'_>>
    ensures { option_map told_event result ≡ event_of channels line.now }
{
    let (word, rest) = cut_word(line);
    let Some(rest) = rest else {
        let event = bare_event(word)?;
        return Some(EventLine::Other { event });
    };
    let (channel, rest) = cut_word(rest);
    let c = number_of(channel, 1, channels)?;
    let Some(rest) = rest else {
        let event = channel_event(word, c)?;
        return Some(EventLine::Other { event });
    };
    long_event(word, c, rest)
}

// The event of one word.
fn bare_event(word: &[u8]) -> Option<Event>
    ensures { result ≡ bare_event word.now }
{
    if is(word, "send") {
        Some(Event::Send)
    } else if is(word, "announce") {
        Some(Event::Announce)
    } else if is(word, "deliver") {
        Some(Event::Deliver)
    } else if is(word, "control") {
        Some(Event::Control)
    } else if is(word, "pool") {
        Some(Event::Pool)
    } else {
        None
    }
}

// The event of a word and a channel.
fn channel_event(word: &[u8], c: u32) -> Option<Event>
    ensures { result ≡ channel_event word.now c }
{
    if is(word, "finish") {
        Some(Event::Finish { c })
    } else if is(word, "credit") {
        Some(Event::Credit { c })
    } else if is(word, "resume") {
        Some(Event::Resume { c })
    } else if is(word, "poll") {
        Some(Event::Poll { c })
    } else if is(word, "hold") {
        Some(Event::Hold { c })
    } else {
        None
    }
}

// The event of a word, a channel, and what follows them.
fn long_event<'a>(word: &[u8], c: u32, rest: &'a [u8]) -> Option<EventLine<'a>>
    ensures { option_map told_event result ≡ long_event word.now c rest.now }
{
    if is(word, "emit") {
        return is_text(rest).then_some(EventLine::Emit { c, text: rest });
    }
    let event = if is(word, "fill") {
        let n = number_of(rest, 0, FILL_MAX)?;
        Event::Fill { c, n }
    } else if is(word, "barrier") {
        barrier_event(c, rest)?
    } else if is(word, "save") {
        let k = long_number_of(rest, 1, u64::MAX)?;
        Event::Save { c, k }
    } else if is(word, "saved") {
        let k = long_number_of(rest, 1, u64::MAX)?;
        Event::Saved { c, k }
    } else {
        return None;
    };
    Some(EventLine::Other { event })
}

// The event of a barrier's number and its kind.
fn barrier_event(c: u32, rest: &[u8]) -> Option<Event>
    ensures { result ≡ barrier_event c (cut rest.now).0 (cut rest.now).1 }
{
    let (number, word) = cut_word(rest);
    let kind = kind_of(word?)?;
    let k = long_number_of(number, 1, u64::MAX)?;
    Some(Event::Barrier { c, k, kind })
}

// The kind of a barrier.
fn kind_of(word: &[u8]) -> Option<BarrierKind>
    ensures { result ≡ kind_of word.now }
{
    if is(word, "inline") {
        Some(BarrierKind::Inline)
    } else if is(word, "front") {
        Some(BarrierKind::Front)
    } else {
        None
    }
}

// The first line of the bytes, and what follows it. Bytes without a newline are one line.
pub(crate) fn next_line(bytes: &[u8]) -> Option<(&[u8], &[u8])>
    ensures some { IfSome result (λ parts. lines bytes.now ≡ parts.0.now ∷ lines parts.1.now) }
    ensures shorter { IfSome result (λ parts. length parts.1.now < length bytes.now) }
    ensures none { IfNone result (lines bytes.now ≡ []) }
{
    match cut_line(bytes) {
        Some((line, rest)) => Some((line, rest)),
        None => {
            if bytes.is_empty() {
                None
            } else {
                Some((bytes, &[]))
            }
        }
    }
}
