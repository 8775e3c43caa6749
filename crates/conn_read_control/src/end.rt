// The end of the loop.
ghost use Rattle.std.specs.Prelude.{◌≡◌, ◌≤◌, ◌⊎◌, Some};
ghost use Rattle.turn_cell.specs.Passes.{IsPassOf, seen};
ghost use Rattle.flow_defs.specs.declared.cause.Cause.TheVariants.{Peer, Stopped};
ghost use Rattle.flow_defs.specs.declared.cause.PeerFault.TheVariants.{Cut};
ghost use Rattle.outside.specs.Stops.{first_met};
ghost use Rattle.conn_parts.specs.Coming.{Came};
ghost use Rattle.conn_parts.specs.Stopping.{ToldStop};
ghost use Rattle.conn_read_control.specs.Rounds.{HasLooked, HasFinished};

use conn_parts::drain;
use flow_defs::{Cause, PeerFault};
use outside::{LinkIn, StopState, tell_cause, tell_stop_if_first};
use std::sync::Wait;
use turn_cell::{Pass, TurnCell};

// Tells of the end of the bytes before the closing frame. Where another fault was met before, the other
// end was stopped as this one is.
fn tell_cut<R: Wait>(rt: &R, stop: &TurnCell<StopState>, pass: &mut Pass<StopState>) -> Cause
    requires { IsPassOf stop.now pass.old }
    ensures told { ToldStop stop.now result pass.old pass.new }
    ensures first { ((result ≡ Peer Cut) × (first_met (seen pass.new) ≡ Some (Peer Cut))) ⊎ (result ≡ Stopped) }
{
    let cut = Cause::Peer {
        fault: PeerFault::Cut,
    };
    if tell_stop_if_first(rt, stop, pass, cut) {
        return cut;
    }
    Cause::Stopped
}

/// Tells the stop cell of a fault for which the rounds ended, and reads on. Answers the cause that counts.
pub(crate) fn finish<I: LinkIn, R: Wait>(
    rt: &R,
    stop: &TurnCell<StopState>,
    pass: &mut Pass<StopState>,
    input: &mut I,
    met: Cause,
) -> Cause
    requires pass { IsPassOf stop.now pass.old }
    requires looked { HasLooked met (seen pass.old) }
    ensures told { ToldStop stop.now result pass.old pass.new }
    ensures finished { HasFinished (seen pass.new) (I.ended input.old) (I.ended input.new) met result }
    ensures came { Came (I.got input.old) (I.got input.new) }
    ensures line { I.line input.new ≡ I.line input.old }
    ensures never_falls { I.faults input.old ≤ I.faults input.new }
{
    // Behind the end of the bytes, and after a failed read, nothing more comes.
    if let Cause::Peer {
        fault: PeerFault::Cut,
    } = met
    {
        return tell_cut(rt, stop, pass);
    }
    tell_cause(rt, stop, pass, met);
    if let Cause::Link = met {
        return met;
    }
    drain(rt, input);
    met
}
