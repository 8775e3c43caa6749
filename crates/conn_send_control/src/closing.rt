// The end of the loop: a fault is told, and the closing frame written.
ghost use Rattle.std.specs.Prelude.{◌≡◌, ◌≢◌, ◌≤◌, [], true, Some, IfSome};
ghost use Rattle.turn_cell.specs.Passes.{IsPassOf, seen};
ghost use Rattle.flow_defs.specs.declared.cause.Cause.TheVariants.{Done, Stopped};
ghost use Rattle.outside.specs.Links.{IsUnfinished};
ghost use Rattle.conn_parts.specs.Stopping.{ToldStop};
ghost use Rattle.conn_send_control.specs.Announcing.{IsSendCause};
ghost use Rattle.conn_send_control.specs.Going.{ClosedAs};

use conn_parts::close_link;
use flow_defs::Cause;
use outside::{LinkOut, StopState, tell_cause};
use std::sync::Wait;
use turn_cell::{Pass, TurnCell};

// Writes the closing frame, unless a write has failed. It answers the cause that is left.
fn close_half<O: LinkOut, R: Wait>(rt: &R, out: &mut O, cause: Cause) -> Cause
    requires cause { IsSendCause cause }
    requires unfinished { IsUnfinished (O.finished out.old) }
    ensures finished { IfSome (O.finished out.old) (λ _. O.finished out.new ≡ Some true) }
    ensures line { O.line out.new ≡ O.line out.old }
    ensures never_falls { O.faults out.old ≤ O.faults out.new }
    ensures closed { ClosedAs cause result (O.sent out.old) (O.sent out.new) (O.faults out.old) (O.faults out.new) }
{
    if let Cause::Link = cause {
        out.finish(rt);
        return Cause::Link;
    }
    match close_link(rt, out) {
        Ok(()) => cause,
        Err(_) => match cause {
            Cause::Memory => Cause::Memory,
            _ => Cause::Link,
        },
    }
}

/// Tells a fault, and writes the closing frame. Where that fails and no fault was told, the cause becomes
/// a failed link, and is told.
pub(crate) fn end_loop<O: LinkOut, R: Wait>(
    rt: &R,
    out: &mut O,
    stop: &TurnCell<StopState>,
    stop_pass: &mut Pass<StopState>,
    cause: Cause,
) -> Cause
    requires cause { IsSendCause cause }
    requires unfinished { IsUnfinished (O.finished out.old) }
    requires stop { IsPassOf stop.now stop_pass.old }
    requires stopped { cause ≡ Stopped → seen stop_pass.old ≢ [] }
    requires done { cause ≡ Done → seen stop_pass.old ≡ [] }
    ensures finished { IfSome (O.finished out.old) (λ _. O.finished out.new ≡ Some true) }
    ensures line { O.line out.new ≡ O.line out.old }
    ensures never_falls { O.faults out.old ≤ O.faults out.new }
    ensures closed { ClosedAs cause result (O.sent out.old) (O.sent out.new) (O.faults out.old) (O.faults out.new) }
    ensures stop { ToldStop stop.now result stop_pass.old stop_pass.new }
{
    tell_cause(rt, stop, stop_pass, cause);
    let closed = close_half(rt, out, cause);
    match cause {
        Cause::Done => tell_cause(rt, stop, stop_pass, closed),
        Cause::Stopped => tell_cause(rt, stop, stop_pass, closed),
        _ => {}
    }
    closed
}
