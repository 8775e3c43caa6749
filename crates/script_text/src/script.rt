// Reads the text of a script.
ghost use Rattle.std.specs.Prelude.{◌≡◌, ◌↔◌, ℕ, None, Err, IfOk, IfErr, OnOk, map};
ghost use Rattle.std.specs.List.{AllByRecursion};
ghost use Rattle.flow_defs.specs.Lines.{lines};
ghost use Rattle.script_text.specs.declared.event.Script.{Script};
ghost use Rattle.script_text.specs.Scripts.{event_line, IsEvent, IsScriptText};
ghost use Rattle.script_text.specs.ScriptFaults.{IsFirstBadLine};
ghost use Rattle.script_text.specs.Reading.{bad_from, IsTold};

use crate::lines::{EventLine, open};
use crate::reader::EventLines;
use crate::{Event, Script, ScriptFault};
use flow_defs::{Bytes, ListOf};
use std::alloc::Global;

/// Reads the script whose text this is, in time linear in the text. The last line may lack its newline.
///
/// The text is checked before memory is taken, so a bad line is told however little memory there is.
/// Each event takes memory for its place in the list and for its record's text alone.
pub fn read_script(alloc: Global, bytes: &[u8]) -> Result<Script, ScriptFault>
    ensures script { IfOk result (λ script. IsScriptText bytes.now script) }
    ensures line { (line : ℕ) → (result ≡ Err (ScriptFault.Line line)) ↔ IsFirstBadLine bytes.now line }

    // No text of a script is refused.
    ensures accepted { (script : Script) (line : ℕ) → IsScriptText bytes.now script →
        IsFirstBadLine bytes.now line → ⊥ }
{
    let (opening, rest) = open(bytes)?;
    check(rest, opening.channels)?;
    let events = build(alloc, rest, opening.channels)?;
    Ok(Script {
        channels: opening.channels,
        size: opening.size,
        total: opening.total,
        events,
    })
}

// Reads the lines behind the first to their end or the first bad one.
fn check(rest: &[u8], channels: u32) -> Result<(), ScriptFault>
    ensures ok { OnOk result (bad_from channels 2 (lines rest.now) ≡ None) }
    ensures err { IfErr result (λ told. IsTold told (bad_from channels 2 (lines rest.now))) }
{
    let mut lines = EventLines::of(rest, channels);
    'lines: while lines.next()?.is_some() {}
    Ok(())
}

// Makes the events of the lines behind the first, none of which is bad.
fn build(alloc: Global, rest: &[u8], channels: u32) -> Result<ListOf<Event>, ScriptFault>
    requires { bad_from channels 2 (lines rest.now) ≡ None }
    ensures lines { IfOk result (λ events. map event_line events.items ≡ lines rest.now) }
    ensures events { IfOk result (λ events. AllByRecursion (IsEvent channels) events.items) }
    ensures err { IfErr result (λ fault. fault ≡ ScriptFault.Memory) }
{
    let mut events = ListOf::new(alloc);
    let mut lines = EventLines::of(rest, channels);
    'lines: while let Some(line) = lines.next()? {
        let event = match line {
            EventLine::Emit { c, text } => Event::Emit {
                c,
                text: Bytes::of(alloc, text)?,
            },
            EventLine::Other { event } => event,
        };
        events.push(event)?;
    }
    Ok(events)
}
