// How the loop ends.
ghost use Rattle.std.specs.Prelude.{◌≡◌, ◌≤◌, Some, true, IfSome};
ghost use Rattle.outside.specs.Links.{IsUnfinished};
ghost use Rattle.conn_parts.specs.Stopping.{ToldStop};
ghost use Rattle.conn_send_items.specs.Steps.{ClosedAfter, ClosedAs, LooksForStop};

use conn_parts::close_link;
use flow_defs::Cause;
use outside::{Failed, LinkOut, StopState, tell_cause};
use std::sync::Wait;
use turn_cell::{Pass, TurnCell};

// Writes the closing frame and finishes the half. Where a write had failed it only finishes it.
fn close_half<O: LinkOut, R: Wait>(rt: &R, out: &mut O, cause: Cause) -> Result<(), Failed>
    requires { IsUnfinished (O.finished out.old) }
    ensures finished { IfSome (O.finished out.old) (λ _. O.finished out.new ≡ Some true) }
    ensures line { O.line out.new ≡ O.line out.old }
    ensures closed { ClosedAfter (O.sent out.old) (O.sent out.new) (O.faults out.old) (O.faults out.new) cause result }
    ensures never_falls { O.faults out.old ≤ O.faults out.new }
{
    if let Cause::Link = cause {
        out.finish(rt);
        return Ok(());
    }
    close_link(rt, out)
}

/// Tells of a fault, and closes the half. A closing frame that can't be written is itself a fault, where
/// there was none before. Answers the cause.
pub fn end_half<O: LinkOut, R: Wait>(
    rt: &R,
    out: &mut O,
    stop: &TurnCell<StopState>,
    stop_pass: &mut Pass<StopState>,
    cause: Cause,
) -> Cause
    requires unfinished { IsUnfinished (O.finished out.old) }
    requires stop { LooksForStop stop.now stop_pass.old stop_pass.old cause }
    ensures finished { IfSome (O.finished out.old) (λ _. O.finished out.new ≡ Some true) }
    ensures line { O.line out.new ≡ O.line out.old }
    ensures closed { ClosedAs (O.sent out.old) (O.sent out.new) (O.faults out.old) (O.faults out.new) cause result }
    ensures never_falls { O.faults out.old ≤ O.faults out.new }
    ensures stop { ToldStop stop.now result stop_pass.old stop_pass.new }
{
    tell_cause(rt, stop, stop_pass, cause);
    match close_half(rt, out, cause) {
        Ok(()) => cause,
        Err(_) => match cause {
            Cause::Done => {
                tell_cause(rt, stop, stop_pass, Cause::Link);
                Cause::Link
            }
            Cause::Stopped => {
                tell_cause(rt, stop, stop_pass, Cause::Link);
                Cause::Link
            }
            Cause::Input { .. } => cause,
            Cause::Keeper => cause,
            Cause::Link => Cause::Link,
            Cause::LongLine { .. } => cause,
            Cause::BigSource { .. } => cause,
            Cause::BigImage => cause,
            Cause::OverCredit { .. } => cause,
            Cause::Peer { .. } => cause,
            Cause::Memory => Cause::Memory,
        },
    }
}
