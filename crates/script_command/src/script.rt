// Does the script in a file.
ghost use Rattle.std.specs.Prelude.{◌≡◌, ◌≤◌, ◌++◌, length, reverse, IfOk, IfErr, IfSome, OnOk};
ghost use Rattle.std.specs.List.{AllByRecursion};
ghost use Rattle.outside.specs.Faults.{HasRisen};
ghost use Rattle.exchange_world.specs.Steps.{step};
ghost use Rattle.exchange_world.specs.Worlds.{opened};
ghost use Rattle.script_text.specs.Replies.{printed, reply_lines};
ghost use Rattle.script_text.specs.Scripts.{IsEvent, IsOpening, IsScriptText};
ghost use Rattle.command_parts.specs.Causes.{status_of, of_script_file};
ghost use Rattle.script_command.specs.Scripts.{HasEnough, IsScriptFault, Replies, printed_replies};
ghost use Rattle.script_command.specs.ScriptParts.{IsScriptFileFault, IsLineFault, IsPoolFault};
ghost use Rattle.script_command.specs.Limits.{script_max};

use command_parts::fault::Fault;
use command_parts::input::{InputFault, read_file};
use exchange_core::{Exchange1, StartFault};
use exchange_world::laws::connections_stay_sound;
use flow_defs::{Bytes, ListOf};
use outside::Files;
use script_text::{Event, Script, ScriptFault, read_script, write_reply};
use std::alloc::{AllocError, Global};
use std::sync::Wait;

/// The most bytes in a script's text.
pub const SCRIPT_MAX: usize = 16_777_216;

/// What is replied to the script in the file of this name, as it is printed. The events happen at both
/// ends of one connection, whose credit and backlog are those of Flink's network stack.
pub fn replies_of_file<R: Wait, F: Files>(
    rt: &R,
    alloc: Global,
    name: &str,
    files: &mut F,
) -> Result<Bytes, Fault>
    ensures done { IfOk result (λ text. IfSome (F.contents files.old name.now) (Replies (λ replies. text.items ≡ replies))) }
    ensures fault { IfErr result (IsScriptFault (F.contents files.old name.now)) }
    ensures input { IfErr result (λ fault. status_of fault ≡ 4 → HasRisen (F.faults files.old) (F.faults files.new)) }
    ensures no_output { IfErr result (λ fault. status_of fault ≡ 7 → ⊥) }
    ensures given_back { F.lent files.new ≡ F.lent files.old }
{
    let text = read_script_text(alloc, files, name)?;
    let script = script_of_text(alloc, text.as_slice())?;
    let replies = replies_of(rt, alloc, script)?;
    Ok(Bytes::of(alloc, replies.as_slice())?)
}

// The fault of the file with a script's text. Its lines have no limit.
fn script_file_fault(fault: InputFault) -> Fault
    ensures { result ≡ of_script_file fault }
{
    match fault {
        InputFault::Failed => Fault::ScriptInput,
        InputFault::TooBig | InputFault::LongLine => Fault::LongScript,
        InputFault::Memory => Fault::Memory,
    }
}

// The text of the script in the file of this name.
fn read_script_text<F: Files>(alloc: Global, files: &mut F, name: &str) -> Result<Bytes, Fault>
    ensures told { IfOk result (λ text. IfSome (F.contents files.old name.now) (λ held. text.items ≡ held)) }
    ensures fits { IfOk result (λ text. length text.items ≤ script_max) }
    ensures fault { IfErr result (IsScriptFileFault (F.contents files.old name.now)) }
    ensures input { IfErr result (λ fault. status_of fault ≡ 4 → HasRisen (F.faults files.old) (F.faults files.new)) }
    ensures no_output { IfErr result (λ fault. status_of fault ≡ 7 → ⊥) }
    ensures given_back { F.lent files.new ≡ F.lent files.old }
{
    match read_file(alloc, files, name, SCRIPT_MAX) {
        Ok(text) => Ok(text),
        Err(fault) => Err(script_file_fault(fault)),
    }
}

// The script whose text this is.
fn script_of_text(alloc: Global, text: &[u8]) -> Result<Script, Fault>
    ensures script { IfOk result (IsScriptText text.now) }
    ensures fault { IfErr result (IsLineFault text.now) }
{
    match read_script(alloc, text) {
        Ok(script) => Ok(script),
        Err(ScriptFault::Line { line }) => Err(Fault::ScriptLine { line }),
        Err(ScriptFault::Memory) => Err(Fault::Memory),
    }
}

// What is replied to the script, as it is printed.
fn replies_of<R: Wait>(rt: &R, alloc: Global, script: Script) -> Result<ListOf<u8>, Fault>
    requires opening { IsOpening script.channels script.size script.total }
    requires events { AllByRecursion (IsEvent script.channels) script.events.items }
    ensures done { IfOk result (λ text. HasEnough script × (text.items ≡ printed_replies script)) }
    ensures fault { IfErr result (IsPoolFault script) }
{
    let mut exchange = open(rt, alloc, &script)?;
    connections_stay_sound();
    let mut events = script.events;
    reverse_all(&mut events);
    let mut text = ListOf::new(alloc);
    while let Some(event) = events.pop() {
        add_reply(rt, alloc, &mut exchange, event, &mut text)?;
    }
    Ok(text)
}

// The connection that the script opens.
fn open<R: Wait>(rt: &R, alloc: Global, script: &Script) -> Result<Exchange1, Fault>
    requires { IsOpening script.now.channels script.now.size script.now.total }
    ensures world { IfOk result (λ exchange. exchange.world ≡ opened script.now.channels script.now.size script.now.total) }
    ensures enough { IfOk result (λ _. HasEnough script.now) }
    ensures fault { IfErr result (IsPoolFault script.now) }
{
    match Exchange1::new(rt, alloc, script.channels, script.size, script.total) {
        Ok(exchange) => Ok(exchange),
        Err(StartFault::TooFew { need, have }) => Err(Fault::TooFewSegments { have, need }),
        Err(StartFault::Memory) => Err(Fault::Memory),
    }
}

// Does the event, and adds what is replied to it.
fn add_reply<R: Wait>(
    rt: &R,
    alloc: Global,
    exchange: &mut Exchange1,
    event: Event,
    text: &mut ListOf<u8>,
) -> Result<(), AllocError>
    requires { IsEvent (length exchange.old.world.lanes) event }
    ensures world { OnOk result (exchange.new.world ≡ (step exchange.old.world event).0) }
    ensures text { OnOk result (text.new.items ≡ text.old.items ++ printed (reply_lines (step exchange.old.world event).1)) }
{
    let reply = exchange.step(rt, alloc, event)?;
    write_reply(&reply, text)?;
    Ok(())
}

// Turns the list round, so that the first event is taken first.
fn reverse_all(events: &mut ListOf<Event>)
    ensures { events.new.items ≡ reverse events.old.items }
{
    events.as_mut_slice().reverse();
}
