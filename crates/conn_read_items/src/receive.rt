// The loop that reads items.
ghost use Rattle.std.specs.Prelude.{◌≡◌, ◌≤◌};
ghost use Rattle.conn_parts.specs.Coming.{Came};
ghost use Rattle.conn_parts.specs.Stopping.{ToldStop};
ghost use Rattle.conn_read_items.specs.Asking.{AskedForAll};
ghost use Rattle.conn_read_items.specs.Receiving.{MayReadItems, ItemsHandBack, ItemsAccount};
ghost use Rattle.conn_read_items.specs.Taking.{AreLent, KeepsOthers, ReadToEnd};

use crate::cells::Cells;
use crate::rounds::read_rounds;
use conn_parts::{ConnShare, Incoming, LoopEnd, SharePasses, drain};
use flow_defs::{Cause, PeerFault};
use outside::{LinkIn, tell_stop};
use std::alloc::Global;
use std::sync::Wait;

// Makes room for what comes, and takes messages. It has told the stop cell why it ended.
fn read_messages<'p, I: LinkIn, R: Wait>(
    rt: &R,
    alloc: Global,
    cells: &Cells<'_, 'p>,
    passes: &mut SharePasses<'p>,
    input: &mut I,
) -> Cause
    requires { AreLent cells.now passes.old }
    ensures lent { AreLent cells.now passes.new }
    ensures others { KeepsOthers passes.old passes.new }
    ensures asked { AskedForAll cells.now.channels.now passes.old passes.new }
    ensures line { I.line input.new ≡ I.line input.old }
    ensures never_falls { I.faults input.old ≤ I.faults input.new }
    ensures account { ReadToEnd cells.now passes.old passes.new (I.got input.old) (I.got input.new) (I.ended input.old) (I.ended input.new) (I.faults input.old) (I.faults input.new) result }
    ensures stop { ToldStop cells.now.stop.now result passes.old.stop passes.new.stop }
{
    match Incoming::new(alloc) {
        Ok(incoming) => {
            let mut incoming = incoming;
            read_rounds(rt, cells, passes, &mut incoming, input)
        }
        Err(_) => {
            tell_stop(rt, cells.stop, &mut passes.stop, Cause::Memory);
            Cause::Memory
        }
    }
}

// Reads on and drops what comes, but after a failed read, and where the bytes have ended.
fn read_rest<I: LinkIn, R: Wait>(rt: &R, input: &mut I, cause: Cause)
    ensures came { Came (I.got input.old) (I.got input.new) }
    ensures line { I.line input.new ≡ I.line input.old }
    ensures never_falls { I.faults input.old ≤ I.faults input.new }
    ensures cut { cause ≡ Cause.Peer PeerFault.Cut → I.ended input.new ≡ I.ended input.old }
{
    match cause {
        Cause::Link => {}
        Cause::Peer {
            fault: PeerFault::Cut,
        } => {}
        _ => drain(rt, input),
    }
}

/// Reads the frames of all channels and gives their items to the input channels, for which it asks the
/// gates' pools for floating segments, until the closing frame, an entry of the stop cell or a fault.
/// Then it reads on to the end and drops what comes.
pub fn read_items<'a, 'p, I: LinkIn, R: Wait>(
    rt: &R,
    alloc: Global,
    input: I,
    share: ConnShare<'a, 'p>,
) -> LoopEnd<'p, I>
    requires { MayReadItems share }
    ensures passes { ItemsHandBack share.entry result.passes }
    ensures line { I.line result.half ≡ I.line input }
    ensures account { ItemsAccount share.entry result.passes (I.got input) (I.got result.half) (I.ended input) (I.ended result.half) (I.faults input) (I.faults result.half) result.cause }
    ensures asked { AskedForAll share.entry.channels.now share.entry.passes result.passes }
    ensures stop { ToldStop share.entry.stop.now result.cause share.entry.passes.stop result.passes.stop }
{
    let ConnShare {
        channels,
        size,
        inputs,
        pools,
        stop,
        passes,
        ..
    } = share;
    let cells = Cells {
        channels,
        size,
        inputs,
        pools,
        stop,
    };
    let mut passes = passes;
    let mut input = input;
    let cause = read_messages(rt, alloc, &cells, &mut passes, &mut input);
    read_rest(rt, &mut input, cause);
    LoopEnd {
        half: input,
        passes,
        cause,
    }
}
