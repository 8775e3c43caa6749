// The loop that reads control frames.
ghost use Rattle.std.specs.Prelude.{◌≡◌};
ghost use Rattle.conn_parts.specs.Stopping.{ToldStop};
ghost use Rattle.conn_read_control.specs.Controlling.{MayReadControl, ControlHandsBack, ControlAccount};

use crate::cells::{ControlCells, ControlPasses};
use crate::end::finish;
use crate::rounds::read_frames;
use conn_parts::{ConnShare, LoopEnd, SharePasses};
use outside::LinkIn;
use std::alloc::Global;
use std::sync::Wait;

/// Reads control frames and gives requests, credit, resumptions and desired buffer sizes to the sending
/// end, until the closing frame, an entry of the stop cell or a fault. Then it reads on to the end and
/// drops what comes.
///
/// Credit that doesn't fit yet, and a resumption of a channel that is not blocked, are kept and given
/// later. They are a fault once the end of their channel was sent.
pub fn read_control<'a, 'p, I: LinkIn, R: Wait>(
    rt: &R,
    alloc: Global,
    input: I,
    share: ConnShare<'a, 'p>,
) -> LoopEnd<'p, I>
    requires { MayReadControl share }
    ensures passes { ControlHandsBack share.entry result.passes }
    ensures line { I.line result.half ≡ I.line input }
    ensures account { ControlAccount share.entry result.passes (I.got input) (I.got result.half) (I.ended input) (I.ended result.half) (I.faults input) (I.faults result.half) result.cause }
    ensures stop { ToldStop share.entry.stop.now result.cause share.entry.passes.stop result.passes.stop }
{
    let ConnShare {
        channels,
        size,
        readers,
        subpartitions,
        inputs: _,
        pools: _,
        stop,
        passes,
    } = share;
    let SharePasses {
        readers: reader_pass,
        subpartitions: subpartition_passes,
        inputs,
        pools,
        stop: stop_pass,
    } = passes;
    let Some(reader_pass) = reader_pass else {
        unreachable!()
    };
    let cells = ControlCells {
        channels,
        size,
        readers,
        subpartitions,
        stop,
    };
    let mut passes = ControlPasses {
        readers: reader_pass,
        subpartitions: subpartition_passes,
        stop: stop_pass,
    };
    let mut half = input;
    let met = read_frames(rt, alloc, &cells, &mut passes, &mut half);
    let cause = finish(rt, stop, &mut passes.stop, &mut half, met);
    LoopEnd {
        half,
        passes: SharePasses {
            readers: Some(passes.readers),
            subpartitions: passes.subpartitions,
            inputs,
            pools,
            stop: passes.stop,
        },
        cause,
    }
}
