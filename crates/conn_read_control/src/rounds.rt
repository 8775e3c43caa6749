// The rounds of the loop: in each it looks at the stop cell, and then handles one frame or reads.
ghost use Rattle.std.specs.Prelude.{◌≡◌, ◌<◌, ◌≤◌, true, [], length, None, IfNone};
ghost use Rattle.net_frames.specs.Limits.{frame_max};
ghost use Rattle.net_frames.specs.Faults.{IsFound};
ghost use Rattle.turn_cell.specs.Passes.{IsSamePass, seen};
ghost use Rattle.outside.specs.Stops.{first_met};
ghost use Rattle.conn_read_control.specs.Rounds.{AreCells, FitCells, HasHandled, HasRead, Went, HasEnded};

use crate::cells::{ControlCells, ControlPasses};
use crate::message::take_frame;
use conn_parts::{Incoming, Watch};
use flow_defs::{Cause, PeerFault};
use net_frames::{Decoded, Frame, FrameFault, decode};
use outside::LinkIn;
use std::alloc::Global;
use std::sync::Wait;

const BAD_FRAME: Cause = Cause::Peer {
    fault: PeerFault::BadFrame,
};

const CUT: Cause = Cause::Peer {
    fault: PeerFault::Cut,
};

// Handles the frame that was found first. It stays where it ends the loop.
fn handle<R: Wait>(
    rt: &R,
    cells: &ControlCells,
    passes: &mut ControlPasses,
    incoming: &mut Incoming,
    found: Decoded,
) -> Option<Cause>
    requires cells { AreCells cells.now }
    requires passes { FitCells cells.now passes.old }
    requires found { IsFound incoming.old found }
    ensures passes { FitCells cells.now passes.new }
    ensures stop { passes.new.stop ≡ passes.old.stop }
    ensures handled { HasHandled cells.now passes.old passes.new incoming.old incoming.new result }
{
    match take_frame(rt, cells, passes, found.frame) {
        Ok(()) => {
            if let Frame::Close = found.frame {
                return Some(Cause::Done);
            }
            incoming.consume(found.used);
            None
        }
        Err(fault) => Some(Cause::Peer { fault }),
    }
}

// Reads once more.
fn read_more<I: LinkIn, R: Wait>(rt: &R, incoming: &mut Incoming, input: &mut I) -> Option<Cause>
    requires { length incoming.old < frame_max }
    ensures read { HasRead (I.got input.old) (I.got input.new) (I.ended input.old) (I.ended input.new) (I.faults input.old) (I.faults input.new) incoming.old incoming.new result }
    ensures line { I.line input.new ≡ I.line input.old }
    ensures never_falls { I.faults input.old ≤ I.faults input.new }
{
    match incoming.read_from(rt, input) {
        Ok(count) => {
            if count == 0 {
                return Some(CUT);
            }
            None
        }
        Err(_) => Some(Cause::Link),
    }
}

// One round. Answers why the loop is to end, if it is.
fn round<I: LinkIn, R: Wait>(
    rt: &R,
    watch: &mut Watch,
    cells: &ControlCells,
    passes: &mut ControlPasses,
    incoming: &mut Incoming,
    input: &mut I,
) -> Option<Cause>
    requires cells { AreCells cells.now }
    requires passes { FitCells cells.now passes.old }
    requires calm { watch.old ≡ true → first_met (seen passes.old.stop) ≡ None }
    ensures calm { IfNone result (first_met (seen passes.new.stop) ≡ None) }
    ensures passes { FitCells cells.now passes.new × IsSamePass passes.old.stop passes.new.stop }
    ensures line { I.line input.new ≡ I.line input.old }
    ensures never_falls { I.faults input.old ≤ I.faults input.new }
    ensures went { Went cells.now passes.old passes.new (I.got input.old) (I.got input.new) (I.ended input.old) (I.ended input.new) (I.faults input.old) (I.faults input.new) incoming.old incoming.new result }
{
    if let Some(_) = watch.look(rt, cells.stop, &mut passes.stop) {
        return Some(Cause::Stopped);
    }
    match decode(incoming.bytes()) {
        Ok(found) => handle(rt, cells, passes, incoming, found),
        Err(FrameFault::NeedMore) => read_more(rt, incoming, input),
        Err(FrameFault::BadLength { .. }) => Some(BAD_FRAME),
        Err(FrameFault::BadMagic { .. }) => Some(BAD_FRAME),
        Err(FrameFault::BadId { .. }) => Some(BAD_FRAME),
        Err(FrameFault::BadBody { .. }) => Some(BAD_FRAME),
    }
}

/// Takes frames until the closing one, an entry of the stop cell or a fault, and answers why it ended.
/// The end of the bytes before the closing frame is a fault here, whatever was met elsewhere.
pub(crate) fn read_frames<I: LinkIn, R: Wait>(
    rt: &R,
    alloc: Global,
    cells: &ControlCells,
    passes: &mut ControlPasses,
    input: &mut I,
) -> Cause
    requires cells { AreCells cells.now }
    requires passes { FitCells cells.now passes.old }
    ensures passes { FitCells cells.now passes.new × IsSamePass passes.old.stop passes.new.stop }
    ensures line { I.line input.new ≡ I.line input.old }
    ensures never_falls { I.faults input.old ≤ I.faults input.new }
    ensures ended { HasEnded cells.now passes.old passes.new (I.got input.old) (I.got input.new) (I.ended input.old) (I.ended input.new) (I.faults input.old) (I.faults input.new) [] result }
{
    let Ok(mut incoming) = Incoming::new(alloc) else {
        return Cause::Memory;
    };
    let mut watch = Watch::new();
    for _round in rt.forever() {
        if let Some(cause) = round(rt, &mut watch, cells, passes, &mut incoming, input) {
            return cause;
        }
    }
    unreachable!()
}
