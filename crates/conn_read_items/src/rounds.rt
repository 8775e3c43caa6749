// The rounds of the loop.
ghost use Rattle.std.specs.Prelude.{◌≡◌, ◌<◌, ◌≤◌, ◌⊎◌, [], length, Some, IfNone, IfSome};
ghost use Rattle.net_frames.specs.Limits.{frame_max};
ghost use Rattle.turn_cell.specs.Passes.{IsPassOf, seen};
ghost use Rattle.outside.specs.Stops.{first_met};
ghost use Rattle.conn_parts.specs.Stopping.{ToldStop};
ghost use Rattle.conn_read_items.specs.Asking.{AskedForAll};
ghost use Rattle.conn_read_items.specs.Taking.{AreLent, KeepsOthers, KeepsStop, WentOn, EndedHere, ReadToEnd};

use crate::cells::Cells;
use crate::message::{Step, take_message};
use conn_parts::{Incoming, SharePasses, Watch};
use flow_defs::{Cause, PeerFault};
use outside::{LinkIn, StopState, tell_cause, tell_stop, tell_stop_if_first};
use std::sync::Wait;
use turn_cell::{Pass, TurnCell};

// Tells the stop cell of the end of the bytes before a closing frame, where no fault was met before.
fn tell_cut<R: Wait>(rt: &R, cell: &TurnCell<StopState>, pass: &mut Pass<StopState>) -> Cause
    requires { IsPassOf cell.now pass.old }
    ensures told { ToldStop cell.now result pass.old pass.new }
    ensures cause { (result ≡ Cause.Stopped) ⊎ ((result ≡ Cause.Peer PeerFault.Cut) × (first_met (seen pass.new) ≡ Some (Cause.Peer PeerFault.Cut))) }
{
    let cut = Cause::Peer {
        fault: PeerFault::Cut,
    };
    if tell_stop_if_first(rt, cell, pass, cut) {
        return cut;
    }
    Cause::Stopped
}

// Reads once more, or answers why the loop ends, and has told the stop cell.
fn read_more<'p, I: LinkIn, R: Wait>(
    rt: &R,
    cells: &Cells<'_, 'p>,
    passes: &mut SharePasses<'p>,
    incoming: &mut Incoming,
    input: &mut I,
) -> Option<Cause>
    requires lent { AreLent cells.now passes.old }
    requires short { length incoming.old < frame_max }
    requires calm { seen passes.old.stop ≡ [] }
    ensures lent { AreLent cells.now passes.new }
    ensures others { KeepsOthers passes.old passes.new }
    ensures asked { AskedForAll cells.now.channels.now passes.old passes.new }
    ensures line { I.line input.new ≡ I.line input.old }
    ensures never_falls { I.faults input.old ≤ I.faults input.new }
    ensures went_on { IfNone result (WentOn cells.now.channels.now passes.old.inputs.items passes.new.inputs.items (I.got input.old) (I.got input.new) incoming.old incoming.new) }
    ensures stop { IfNone result (passes.new.stop ≡ passes.old.stop) }
    ensures open_end { IfNone result (I.ended input.new ≡ I.ended input.old) }
    ensures ended { IfSome result (λ cause. EndedHere cells.now passes.old passes.new (I.got input.old) (I.got input.new) (I.ended input.old) (I.ended input.new) incoming.old (I.faults input.old) (I.faults input.new) cause) }
{
    match incoming.read_from(rt, input) {
        Ok(count) => {
            if count == 0 {
                return Some(tell_cut(rt, cells.stop, &mut passes.stop));
            }
            None
        }
        Err(_) => {
            tell_stop(rt, cells.stop, &mut passes.stop, Cause::Link);
            Some(Cause::Link)
        }
    }
}

// Takes the first message of those that came, or reads once more. It answers why the loop ends, where it
// does, and has told the stop cell.
fn go_on<'p, I: LinkIn, R: Wait>(
    rt: &R,
    cells: &Cells<'_, 'p>,
    passes: &mut SharePasses<'p>,
    incoming: &mut Incoming,
    input: &mut I,
) -> Option<Cause>
    requires lent { AreLent cells.now passes.old }
    requires calm { seen passes.old.stop ≡ [] }
    ensures lent { AreLent cells.now passes.new }
    ensures others { KeepsOthers passes.old passes.new }
    ensures asked { AskedForAll cells.now.channels.now passes.old passes.new }
    ensures line { I.line input.new ≡ I.line input.old }
    ensures never_falls { I.faults input.old ≤ I.faults input.new }
    ensures went_on { IfNone result (WentOn cells.now.channels.now passes.old.inputs.items passes.new.inputs.items (I.got input.old) (I.got input.new) incoming.old incoming.new) }
    ensures stop { IfNone result (passes.new.stop ≡ passes.old.stop) }
    ensures open_end { IfNone result (I.ended input.new ≡ I.ended input.old) }
    ensures ended { IfSome result (λ cause. EndedHere cells.now passes.old passes.new (I.got input.old) (I.got input.new) (I.ended input.old) (I.ended input.new) incoming.old (I.faults input.old) (I.faults input.new) cause) }
{
    match take_message(rt, cells, passes, incoming.bytes()) {
        Step::Took(count) => {
            incoming.consume(count);
            None
        }
        Step::More => read_more(rt, cells, passes, incoming, input),
        Step::Ends(cause) => {
            tell_cause(rt, cells.stop, &mut passes.stop, cause);
            Some(cause)
        }
    }
}

/// Takes messages and reads until the closing frame, an entry of the stop cell or a fault, of which it
/// has told the stop cell then.
pub(crate) fn read_rounds<'p, I: LinkIn, R: Wait>(
    rt: &R,
    cells: &Cells<'_, 'p>,
    passes: &mut SharePasses<'p>,
    incoming: &mut Incoming,
    input: &mut I,
) -> Cause
    requires lent { AreLent cells.now passes.old }
    requires fresh { incoming.old ≡ [] }
    ensures lent { AreLent cells.now passes.new }
    ensures others { KeepsOthers passes.old passes.new }
    ensures asked { AskedForAll cells.now.channels.now passes.old passes.new }
    ensures line { I.line input.new ≡ I.line input.old }
    ensures never_falls { I.faults input.old ≤ I.faults input.new }
    ensures account { ReadToEnd cells.now passes.old passes.new (I.got input.old) (I.got input.new) (I.ended input.old) (I.ended input.new) (I.faults input.old) (I.faults input.new) result }
    ensures stop { ToldStop cells.now.stop.now result passes.old.stop passes.new.stop }
{
    let mut watch = Watch::new();
    for _round in rt.forever() {
        match watch.look(rt, cells.stop, &mut passes.stop) {
            Some(_) => return Cause::Stopped,
            None => {}
        }
        match go_on(rt, cells, passes, incoming, input) {
            None => {}
            Some(cause) => return cause,
        }
    }
    unreachable!()
}
