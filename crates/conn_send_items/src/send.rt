// The loop that takes items under credit and writes them.
ghost use Rattle.std.specs.Prelude.{◌≡◌, ◌≢◌, ◌<◌, ◌≤◌, ℕ, [], true, length, slice_get, Some, IfSome, IsTrue};
ghost use Rattle.turn_cell.specs.Passes.{IsPassOf, mine};
ghost use Rattle.outside.specs.Links.{IsUnfinished};
ghost use Rattle.conn_parts.specs.Stopping.{ToldStop};
ghost use Rattle.conn_send_items.specs.Giving.{Gives, GivesAllBack};
ghost use Rattle.conn_send_items.specs.Sending.{MaySendItems, SendHandsBack, SendAccount};
ghost use Rattle.conn_send_items.specs.Steps.{AreCells, HasPasses, AllStand, AreNoted, WritesUntil, SendsUntil, LooksForStop};

use crate::cells::{SendCells, SendPasses};
use crate::ending::end_half;
use crate::laying::round;
use crate::ready::tell_fronts;
use crate::room::Room;
use conn_parts::{ConnShare, LoopEnd, SharePasses, Watch};
use flow_defs::Cause;
use outside::{LinkOut, PAUSES, Pause, StopState};
use std::alloc::Global;
use std::sync::Wait;
use turn_cell::{Pass, TurnCell, have_news};

// Whether all of these flags are raised.
fn all_raised(flags: &[bool]) -> bool
    ensures { IsTrue result → (k : ℕ) → k < length flags.now → slice_get flags.now k ≡ Some true }
{
    flags.iter().all(|raised| *raised)
}

// Pauses until a subpartition, the readers or the stop cell have news.
fn rest<'p, R: Wait>(
    rt: &R,
    pause: &mut Pause,
    cells: &SendCells<'_, 'p>,
    passes: &SendPasses<'p>,
    stop: &TurnCell<StopState>,
    stop_pass: &Pass<StopState>,
) {
    for _pause in 0..PAUSES {
        pause.wait(rt);
        if stop.has_news(stop_pass)
            || cells.readers.has_news(&passes.readers)
            || have_news(cells.subpartitions, passes.subpartitions.as_slice())
        {
            return;
        }
    }
}

// Runs rounds until the end of each channel was sent, the stop cell has an entry or a write fails.
fn send_until<'p, O: LinkOut, R: Wait>(
    rt: &R,
    cells: &SendCells<'_, 'p>,
    passes: &mut SendPasses<'p>,
    room: &mut Room,
    out: &mut O,
    stop: &TurnCell<StopState>,
    stop_pass: &mut Pass<StopState>,
) -> Cause
    requires cells { AreCells cells.now }
    requires passes { HasPasses cells.now passes.old }
    requires stand { AllStand cells.now passes.old }
    requires told { AreNoted cells.now passes.old room.old.told.items }
    requires ended { length room.old.ended.items ≡ length cells.now.channels.now }
    requires empty { room.old.outgoing ≡ [] }
    requires unfinished { IsUnfinished (O.finished out.old) }
    requires stop { IsPassOf stop.now stop_pass.old }
    ensures passes { HasPasses cells.now passes.new }
    ensures told { AreNoted cells.now passes.new room.new.told.items }
    ensures ended { length room.new.ended.items ≡ length cells.now.channels.now }
    ensures unfinished { O.finished out.new ≡ O.finished out.old }
    ensures line { O.line out.new ≡ O.line out.old }
    ensures never_falls { O.faults out.old ≤ O.faults out.new }
    ensures gives { Gives cells.now.channels.now passes.old passes.new }
    ensures writes { WritesUntil cells.now.channels.now passes.old.subpartitions.items passes.new.subpartitions.items (mine passes.old.readers) (mine passes.new.readers) room.old.ended.items room.new.ended.items (O.sent out.old) (O.sent out.new) (O.faults out.old) (O.faults out.new) result }
    ensures stop { LooksForStop stop.now stop_pass.old stop_pass.new result }
{
    let mut watch = Watch::new();
    let mut pause = Pause::new();
    for _round in rt.forever() {
        if let Some(_) = watch.look(rt, stop, stop_pass) {
            return Cause::Stopped;
        }
        if all_raised(room.ended.as_slice()) {
            return Cause::Done;
        }
        match round(rt, cells, passes, room, out) {
            Ok(some) => {
                if some {
                    pause.reset();
                } else {
                    rest(rt, &mut pause, cells, passes, stop, stop_pass);
                }
            }
            Err(_) => return Cause::Link,
        }
    }
    unreachable!()
}

// Makes the room, tells the readers what stands first, and runs rounds.
fn send_all<'p, O: LinkOut, R: Wait>(
    rt: &R,
    alloc: Global,
    cells: &SendCells<'_, 'p>,
    passes: &mut SendPasses<'p>,
    out: &mut O,
    stop: &TurnCell<StopState>,
    stop_pass: &mut Pass<StopState>,
) -> Cause
    requires cells { AreCells cells.now }
    requires passes { HasPasses cells.now passes.old }
    requires new { mine passes.old.readers ≡ [] }
    requires unfinished { IsUnfinished (O.finished out.old) }
    requires stop { IsPassOf stop.now stop_pass.old }
    ensures passes { HasPasses cells.now passes.new }
    ensures unfinished { O.finished out.new ≡ O.finished out.old }
    ensures line { O.line out.new ≡ O.line out.old }
    ensures never_falls { O.faults out.old ≤ O.faults out.new }
    ensures gives { Gives cells.now.channels.now passes.old passes.new }
    ensures sends { SendsUntil cells.now.channels.now passes.old.subpartitions.items passes.new.subpartitions.items (mine passes.new.readers) (O.sent out.old) (O.sent out.new) (O.faults out.old) (O.faults out.new) result }
    ensures stop { LooksForStop stop.now stop_pass.old stop_pass.new result }
{
    match Room::new(alloc, cells.channels.len()) {
        Ok(room) => {
            let mut room = room;
            tell_fronts(rt, cells, passes, &mut room.told);
            send_until(rt, cells, passes, &mut room, out, stop, stop_pass)
        }
        Err(_) => Cause::Memory,
    }
}

/// Takes the items that the readers' queue allows and writes their frames, and announcements of backlog,
/// until the end of each channel was sent, the stop cell has an entry or a write fails. Then it writes
/// the closing frame, and finishes its half of the link.
pub fn send_items<'a, 'p, O: LinkOut, R: Wait>(
    rt: &R,
    alloc: Global,
    out: O,
    share: ConnShare<'a, 'p>,
) -> LoopEnd<'p, O>
    requires share { MaySendItems share }
    requires unfinished { IsUnfinished (O.finished out) }
    ensures passes { SendHandsBack share.entry result.passes }
    ensures finished { IfSome (O.finished out) (λ _. O.finished result.half ≡ Some true) }
    ensures line { O.line result.half ≡ O.line out }
    ensures account { SendAccount share.entry.channels.now share.entry.passes result.passes (O.sent out) (O.sent result.half) (O.faults out) (O.faults result.half) result.cause }
    ensures given { GivesAllBack share.entry.channels.now share.entry.passes result.passes }
    ensures stop { ToldStop share.entry.stop.now result.cause share.entry.passes.stop result.passes.stop }
{
    let ConnShare {
        channels,
        size,
        readers,
        subpartitions,
        inputs: _,
        pools,
        stop,
        passes,
    } = share;
    let SharePasses {
        readers: reader_pass,
        subpartitions: takers,
        inputs,
        pools: givers,
        stop: stop_pass,
    } = passes;
    let Some(reader_pass) = reader_pass else {
        unreachable!()
    };
    let cells = SendCells {
        channels,
        size,
        readers,
        subpartitions,
        pools,
    };
    let mut passes = SendPasses {
        readers: reader_pass,
        subpartitions: takers,
        pools: givers,
    };
    let mut stop_pass = stop_pass;
    let mut out = out;
    let cause = send_all(
        rt,
        alloc,
        &cells,
        &mut passes,
        &mut out,
        stop,
        &mut stop_pass,
    );
    let cause = end_half(rt, &mut out, stop, &mut stop_pass, cause);
    let SendPasses {
        readers: reader_pass,
        subpartitions: takers,
        pools: givers,
    } = passes;
    LoopEnd {
        half: out,
        passes: SharePasses {
            readers: Some(reader_pass),
            subpartitions: takers,
            inputs,
            pools: givers,
            stop: stop_pass,
        },
        cause,
    }
}
