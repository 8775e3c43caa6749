// The rounds of the loop.
ghost use Rattle.std.specs.Prelude.{◌≡◌, ◌≢◌, ◌≤◌, [], length, All, IsTrue, OnOk, true};
ghost use Rattle.turn_cell.specs.Passes.{IsPassOf, IsSamePass, seen};
ghost use Rattle.flow_defs.specs.declared.cause.Cause.TheVariants.{Done, Stopped};
ghost use Rattle.outside.specs.Links.{IsUnfinished};
ghost use Rattle.credit_reader.specs.Senders.{AreDistinct};
ghost use Rattle.conn_parts.specs.Shares.{AreOwn};
ghost use Rattle.conn_send_control.specs.Taking.{HaveEnded};
ghost use Rattle.conn_send_control.specs.Going.{Announced, EndedFor};

use crate::step::announce_at;
use conn_parts::{Outgoing, Watch};
use flow_defs::{Cause, ChannelId, ListOf};
use input_channel::InputChannel;
use outside::{Failed, LinkOut, PAUSES, Pause, StopState};
use std::sync::Wait;
use turn_cell::{Pass, TurnCell, have_news};

// Whether all channels have ended.
fn have_all_ended(ended: &[bool]) -> bool
    ensures { IsTrue result → All (λ b. b ≡ true) ended.now }
{
    ended.iter().all(|ended| *ended)
}

// Takes what each channel has to tell, and writes it. It answers whether there was something.
fn announce_all<O: LinkOut, R: Wait>(
    rt: &R,
    out: &mut O,
    outgoing: &mut Outgoing,
    channels: &[ChannelId],
    cells: &[TurnCell<InputChannel>],
    passes: &mut ListOf<Pass<InputChannel>>,
    ended: &mut ListOf<bool>,
) -> Result<bool, Failed>
    requires distinct { AreDistinct channels.now }
    requires many { (length cells.now ≡ length channels.now) × (length ended.old.items ≡ length channels.now) }
    requires own { AreOwn 2 cells.now passes.old.items }
    requires ended { HaveEnded ended.old.items passes.old.items }
    requires unfinished { IsUnfinished (O.finished out.old) }
    ensures own { AreOwn 2 cells.now passes.new.items }
    ensures unfinished { O.finished out.new ≡ O.finished out.old }
    ensures line { O.line out.new ≡ O.line out.old }
    ensures never_falls { O.faults out.old ≤ O.faults out.new }
    ensures account { Announced channels.now passes.old.items passes.new.items (O.sent out.old) (O.sent out.new) outgoing.old outgoing.new (O.faults out.old) (O.faults out.new) result }
    ensures empty { OnOk result (outgoing.new ≡ []) }
    ensures ended { (length ended.new.items ≡ length channels.now) × HaveEnded ended.new.items passes.new.items }
{
    let mut told = false;
    for at in 0..channels.len() {
        told |= announce_at(rt, out, outgoing, channels, cells, passes, ended, at)?;
    }
    outgoing.write_to(rt, out)?;
    Ok(told)
}

// Pauses until a channel or the stop cell has news.
fn rest<R: Wait>(
    rt: &R,
    pause: &mut Pause,
    cells: &[TurnCell<InputChannel>],
    passes: &[Pass<InputChannel>],
    stop: &TurnCell<StopState>,
    stop_pass: &Pass<StopState>,
) {
    for _pause in 0..PAUSES {
        pause.wait(rt);
        if stop.has_news(stop_pass) || have_news(cells, passes) {
            return;
        }
    }
}

/// Takes and writes what the channels have to tell, round after round.
pub(crate) fn announce_rounds<O: LinkOut, R: Wait>(
    rt: &R,
    out: &mut O,
    outgoing: &mut Outgoing,
    channels: &[ChannelId],
    cells: &[TurnCell<InputChannel>],
    passes: &mut ListOf<Pass<InputChannel>>,
    ended: &mut ListOf<bool>,
    stop: &TurnCell<StopState>,
    stop_pass: &mut Pass<StopState>,
) -> Cause
    requires distinct { AreDistinct channels.now }
    requires many { (length cells.now ≡ length channels.now) × (length ended.old.items ≡ length channels.now) }
    requires own { AreOwn 2 cells.now passes.old.items }
    requires ended { HaveEnded ended.old.items passes.old.items }
    requires empty { outgoing.old ≡ [] }
    requires stop { IsPassOf stop.now stop_pass.old }
    requires unfinished { IsUnfinished (O.finished out.old) }
    ensures own { AreOwn 2 cells.now passes.new.items }
    ensures unfinished { O.finished out.new ≡ O.finished out.old }
    ensures line { O.line out.new ≡ O.line out.old }
    ensures never_falls { O.faults out.old ≤ O.faults out.new }
    ensures account { EndedFor channels.now passes.old.items passes.new.items (O.sent out.old) (O.sent out.new) (O.faults out.old) (O.faults out.new) result }
    ensures stop { IsPassOf stop.now stop_pass.new × IsSamePass stop_pass.old stop_pass.new }
    ensures stopped { result ≡ Stopped → seen stop_pass.new ≢ [] }
    ensures done { result ≡ Done → seen stop_pass.new ≡ [] }
{
    let mut watch = Watch::new();
    let mut pause = Pause::new();
    for _round in rt.forever() {
        if let Some(_) = watch.look(rt, stop, stop_pass) {
            return Cause::Stopped;
        }
        let told = match announce_all(rt, out, outgoing, channels, cells, passes, ended) {
            Ok(told) => told,
            Err(_) => return Cause::Link,
        };
        if have_all_ended(ended.as_slice()) {
            return Cause::Done;
        }
        if told {
            pause.reset();
        } else {
            rest(rt, &mut pause, cells, passes.as_slice(), stop, stop_pass);
        }
    }
    unreachable!()
}
