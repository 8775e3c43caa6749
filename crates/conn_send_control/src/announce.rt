// The loop that writes control frames.
ghost use Rattle.std.specs.Prelude.{◌≡◌, ◌≢◌, ◌≤◌, [], true, length, Some, IfOk, IfSome};
ghost use Rattle.turn_cell.specs.Passes.{IsPassOf, IsSamePass, seen};
ghost use Rattle.flow_defs.specs.declared.cause.Cause.TheVariants.{Done, Stopped};
ghost use Rattle.outside.specs.Links.{IsUnfinished};
ghost use Rattle.credit_reader.specs.Senders.{AreDistinct};
ghost use Rattle.conn_parts.specs.Shares.{AreOwn};
ghost use Rattle.conn_parts.specs.Stopping.{ToldStop};
ghost use Rattle.conn_send_control.specs.Announcing.{MaySendControl, AnnounceHandsBack, AnnounceAccount, IsSendCause};
ghost use Rattle.conn_send_control.specs.Taking.{NoneEnded};
ghost use Rattle.conn_send_control.specs.Going.{RanFor};

use crate::closing::end_loop;
use crate::requests::write_requests;
use crate::rounds::announce_rounds;
use conn_parts::{ConnShare, LoopEnd, Outgoing, SharePasses};
use flow_defs::{Cause, ChannelId, ListOf};
use input_channel::InputChannel;
use outside::{LinkOut, StopState};
use std::alloc::{AllocError, Global};
use std::sync::Wait;
use turn_cell::{Pass, TurnCell};

// So many marks, of which none is set.
fn marks(alloc: Global, count: usize) -> Result<ListOf<bool>, AllocError>
    ensures many { IfOk result (λ marks. length marks.items ≡ count) }
    ensures none { IfOk result (λ marks. NoneEnded marks.items) }
{
    let mut marks = ListOf::new(alloc);
    for _mark in 0..count {
        marks.push(false)?;
    }
    Ok(marks)
}

// What the loop works with: room for frames, and a mark for each channel that has ended.
struct Rooms {
    outgoing: Outgoing,
    ended: ListOf<bool>,
}

fn make_rooms(alloc: Global, count: usize) -> Result<Rooms, AllocError>
    ensures empty { IfOk result (λ rooms. rooms.outgoing ≡ []) }
    ensures many { IfOk result (λ rooms. length rooms.ended.items ≡ count) }
    ensures none { IfOk result (λ rooms. NoneEnded rooms.ended.items) }
{
    let outgoing = Outgoing::new(alloc)?;
    let ended = marks(alloc, count)?;
    Ok(Rooms { outgoing, ended })
}

// Writes the requests, and then what the channels have to tell, to the end of all.
fn announce<O: LinkOut, R: Wait>(
    rt: &R,
    alloc: Global,
    out: &mut O,
    channels: &[ChannelId],
    cells: &[TurnCell<InputChannel>],
    passes: &mut ListOf<Pass<InputChannel>>,
    stop: &TurnCell<StopState>,
    stop_pass: &mut Pass<StopState>,
) -> Cause
    requires distinct { AreDistinct channels.now }
    requires many { length cells.now ≡ length channels.now }
    requires own { AreOwn 2 cells.now passes.old.items }
    requires stop { IsPassOf stop.now stop_pass.old }
    requires unfinished { IsUnfinished (O.finished out.old) }
    ensures own { AreOwn 2 cells.now passes.new.items }
    ensures unfinished { O.finished out.new ≡ O.finished out.old }
    ensures line { O.line out.new ≡ O.line out.old }
    ensures never_falls { O.faults out.old ≤ O.faults out.new }
    ensures account { RanFor channels.now passes.old.items passes.new.items (O.sent out.old) (O.sent out.new) (O.faults out.old) (O.faults out.new) result }
    ensures cause { IsSendCause result }
    ensures stop { IsPassOf stop.now stop_pass.new × IsSamePass stop_pass.old stop_pass.new }
    ensures stopped { result ≡ Stopped → seen stop_pass.new ≢ [] }
    ensures done { result ≡ Done → seen stop_pass.new ≡ [] }
{
    let Ok(rooms) = make_rooms(alloc, channels.len()) else {
        return Cause::Memory;
    };
    let Rooms {
        mut outgoing,
        mut ended,
    } = rooms;
    match write_requests(rt, out, &mut outgoing, channels) {
        Ok(()) => announce_rounds(
            rt,
            out,
            &mut outgoing,
            channels,
            cells,
            passes,
            &mut ended,
            stop,
            stop_pass,
        ),
        Err(_) => Cause::Link,
    }
}

/// Writes a partition request for each channel, and then the credit and the resumptions that the input
/// channels have to tell, until the end of each channel came, the stop cell has an entry or a write
/// fails. Then it writes the closing frame, and finishes its half of the link.
pub fn send_control<'a, 'p, O: LinkOut, R: Wait>(
    rt: &R,
    alloc: Global,
    out: O,
    share: ConnShare<'a, 'p>,
) -> LoopEnd<'p, O>
    requires share { MaySendControl share }
    requires unfinished { IsUnfinished (O.finished out) }
    ensures passes { AnnounceHandsBack share.entry result.passes }
    ensures finished { IfSome (O.finished out) (λ _. O.finished result.half ≡ Some true) }
    ensures line { O.line result.half ≡ O.line out }
    ensures account { AnnounceAccount share.entry.channels.now share.entry.passes result.passes (O.sent out) (O.sent result.half) (O.faults out) (O.faults result.half) result.cause }
    ensures stop { ToldStop share.entry.stop.now result.cause share.entry.passes.stop result.passes.stop }
{
    let ConnShare {
        channels,
        inputs,
        stop,
        passes,
        ..
    } = share;
    let SharePasses {
        readers,
        subpartitions,
        inputs: input_passes,
        pools,
        stop: stop_pass,
    } = passes;
    let mut out = out;
    let mut input_passes = input_passes;
    let mut stop_pass = stop_pass;
    let cause = announce(
        rt,
        alloc,
        &mut out,
        channels,
        inputs,
        &mut input_passes,
        stop,
        &mut stop_pass,
    );
    let cause = end_loop(rt, &mut out, stop, &mut stop_pass, cause);
    LoopEnd {
        half: out,
        passes: SharePasses {
            readers,
            subpartitions,
            inputs: input_passes,
            pools,
            stop: stop_pass,
        },
        cause,
    }
}
