// One channel of a writer.
ghost use Rattle.std.specs.Prelude.{◌≡◌, ◌+◌, ◌≤◌, ◌++◌, [], ◌∷◌, false, length, take, drop, OnOk, OnErr, IfOk, IfErr};
ghost use Rattle.flow_defs.specs.Records.{encoded, IsShort};
ghost use Rattle.turn_cell.specs.Passes.{mine, opened_with};
ghost use Rattle.subpartition.specs.declared.entry.SendEntry.TheVariants.{Put, PutInline, Finish};
ghost use Rattle.subpartition.specs.Queues.{bytes_of};
ghost use Rattle.subpartition.specs.Sending.{is_finished};
ghost use Rattle.record_writer.specs.Writers.{bytes_in, GrewByData};
ghost use Rattle.record_writer.specs.Segments.{NoneLost, NoneLostAt, holds, lending_of};
ghost use Rattle.record_writer.specs.Channels.{IsTaskPass, IsPart, IsOpenAt, IsNextAt, WasEndedAt, WasMarkedAt, WasStoppedAt, IsSupply, IsSameSupply, HasSeenFault, PutIfSome, LaidSome, laid};

use crate::part::{Part, write_behind};
use crate::supply::Supply;
use crate::turns::{barrier_in_turn, finish_in_turn, put_in_turn};
use crate::writer::WriterStopped;
use conn_parts::Watch;
use outside::Pause;
use std::sync::Wait;
use subpartition::{Filled, Subpartition};
use turn_cell::{Pass, TurnCell};

// Puts a buffer, or hands it back where the writer is stopped before there is room.
fn put_waiting<R: Wait>(
    rt: &R,
    supply: &mut Supply<'_, '_>,
    cell: &TurnCell<Subpartition>,
    pass: &mut Pass<Subpartition>,
    filled: Filled,
) -> Result<(), Filled>
    requires supply { IsSupply supply.old }
    requires pass { IsTaskPass cell.now pass.old }
    requires size { length filled.segment ≡ (opened_with cell.now).size }
    requires open_end { is_finished (mine pass.old) ≡ false }
    ensures supply { IsSupply supply.new × IsSameSupply supply.old supply.new }
    ensures pass { IsTaskPass cell.now pass.new }
    ensures entered { OnOk result (mine pass.new ≡ mine pass.old ++ Put (bytes_of filled) ∷ []) }
    ensures stopped { IfErr result (λ back. (back ≡ filled) × (mine pass.new ≡ mine pass.old)) × OnErr result (HasSeenFault supply.new) }
    ensures lending { lending_of supply.new ≡ lending_of supply.old }
{
    let mut waiting = filled;
    let mut watch = Watch::new();
    let mut pause = Pause::new();
    for _round in rt.forever() {
        match put_in_turn(rt, cell, pass, waiting) {
            Ok(()) => return Ok(()),
            Err(back) => waiting = back,
        }
        if let Some(_) = watch.look(rt, supply.stop, &mut supply.stop_pass) {
            return Err(waiting);
        }
        pause.wait(rt);
    }
    unreachable!()
}

/// Puts the buffer that is being filled, where it is not empty. The part then has no segment.
pub(crate) fn put_part<R: Wait>(
    rt: &R,
    supply: &mut Supply<'_, '_>,
    cell: &TurnCell<Subpartition>,
    pass: &mut Pass<Subpartition>,
    part: &mut Part,
) -> Result<(), WriterStopped>
    requires supply { IsSupply supply.old }
    requires size { (opened_with cell.now).size ≡ supply.old.size }
    requires pass { IsTaskPass cell.now pass.old }
    requires part { IsPart supply.old.size part.old }
    requires open_end { is_finished (mine pass.old) ≡ false }
    ensures supply { IsSupply supply.new × IsSameSupply supply.old supply.new }
    ensures pass { IsTaskPass cell.now pass.new }
    ensures part { IsPart supply.old.size part.new }
    ensures entered { OnOk result (PutIfSome (bytes_in part.old) (mine pass.old) (mine pass.new) × (bytes_in part.new ≡ [])) }
    ensures stopped { OnErr result ((mine pass.new ≡ mine pass.old) × (bytes_in part.new ≡ bytes_in part.old) × HasSeenFault supply.new) }
    ensures none_lost { NoneLostAt supply.old supply.new (mine pass.old) (mine pass.new) part.old part.new }
{
    let len = part.len;
    if len == 0 {
        return Ok(());
    }
    let Some(segment) = part.segment.take() else {
        unreachable!()
    };
    part.len = 0;
    match put_waiting(rt, supply, cell, pass, Filled { segment, len }) {
        Ok(()) => Ok(()),
        Err(Filled { segment, len }) => {
            part.segment = Some(segment);
            part.len = len;
            Err(WriterStopped)
        }
    }
}

// Copies the encoding of a record, from its byte `done` on, into the buffer that is being filled, as much as
// fits, and answers how many bytes that are. Asks for a segment where the part has none.
fn fill<R: Wait>(
    rt: &R,
    supply: &mut Supply<'_, '_>,
    part: &mut Part,
    line: &[u8],
    done: usize,
) -> Result<usize, WriterStopped>
    requires supply { IsSupply supply.old }
    requires part { IsPart supply.old.size part.old }
    requires short { IsShort line.now }
    requires within { done ≤ length line.now + 4 }
    ensures supply { IsSupply supply.new × IsSameSupply supply.old supply.new }
    ensures part { IsPart supply.old.size part.new }
    ensures copied { IfOk result (λ count. bytes_in part.new ≡ bytes_in part.old ++ take count (drop done (encoded line.now))) }
    ensures count { IfOk result (λ count. done + count ≤ length line.now + 4) }
    ensures stopped { OnErr result ((bytes_in part.new ≡ bytes_in part.old) × HasSeenFault supply.new) }
    ensures none_lost { NoneLost (lending_of supply.old) (lending_of supply.new) 0 0 (holds part.old) (holds part.new) }
{
    let mut segment = match part.segment.take() {
        Some(segment) => segment,
        None => supply.segment(rt)?,
    };
    let count = write_behind(&mut segment, part.len, line, done);
    part.len += count;
    part.segment = Some(segment);
    Ok(count as usize)
}

// Puts the buffer that is being filled, where it is full.
fn put_if_full<R: Wait>(
    rt: &R,
    supply: &mut Supply<'_, '_>,
    cell: &TurnCell<Subpartition>,
    pass: &mut Pass<Subpartition>,
    part: &mut Part,
) -> Result<(), WriterStopped>
    requires supply { IsSupply supply.old }
    requires size { (opened_with cell.now).size ≡ supply.old.size }
    requires pass { IsTaskPass cell.now pass.old }
    requires part { IsPart supply.old.size part.old }
    requires is_open { IsOpenAt supply.old.size (mine pass.old) }
    ensures supply { IsSupply supply.new × IsSameSupply supply.old supply.new }
    ensures pass { IsTaskPass cell.now pass.new }
    ensures part { IsPart supply.old.size part.new }
    ensures is_open { IsOpenAt supply.old.size (mine pass.new) }
    ensures laid { laid (mine pass.new) part.new ≡ laid (mine pass.old) part.old }
    ensures entries { GrewByData (mine pass.old) (mine pass.new) }
    ensures stopped { OnErr result (HasSeenFault supply.new) }
    ensures none_lost { NoneLostAt supply.old supply.new (mine pass.old) (mine pass.new) part.old part.new }
{
    if part.len < supply.size {
        return Ok(());
    }
    put_part(rt, supply, cell, pass, part)
}

/// Lays down the encoding of a record, and puts each buffer that is full.
pub(crate) fn lay_down<R: Wait>(
    rt: &R,
    supply: &mut Supply<'_, '_>,
    cell: &TurnCell<Subpartition>,
    pass: &mut Pass<Subpartition>,
    part: &mut Part,
    line: &[u8],
) -> Result<(), WriterStopped>
    requires supply { IsSupply supply.old }
    requires size { (opened_with cell.now).size ≡ supply.old.size }
    requires pass { IsTaskPass cell.now pass.old }
    requires part { IsPart supply.old.size part.old }
    requires is_open { IsOpenAt supply.old.size (mine pass.old) }
    requires short { IsShort line.now }
    ensures supply { IsSupply supply.new × IsSameSupply supply.old supply.new }
    ensures pass { IsTaskPass cell.now pass.new }
    ensures part { IsPart supply.old.size part.new }
    ensures is_open { IsOpenAt supply.old.size (mine pass.new) }
    ensures laid { OnOk result (laid (mine pass.new) part.new ≡ laid (mine pass.old) part.old ++ encoded line.now) }
    ensures entries { GrewByData (mine pass.old) (mine pass.new) }
    ensures stopped { OnErr result (LaidSome (laid (mine pass.old) part.old ++ encoded line.now) (laid (mine pass.new) part.new) × HasSeenFault supply.new) }
    ensures none_lost { NoneLostAt supply.old supply.new (mine pass.old) (mine pass.new) part.old part.new }
{
    let all = line.len() + 4;
    let mut done = 0;
    for _round in rt.forever() {
        put_if_full(rt, supply, cell, pass, part)?;
        if done == all {
            return Ok(());
        }
        done += fill(rt, supply, part, line, done)?;
    }
    unreachable!()
}

// Puts the end. Waits where there is no room.
fn finish_waiting<R: Wait>(
    rt: &R,
    supply: &mut Supply<'_, '_>,
    cell: &TurnCell<Subpartition>,
    pass: &mut Pass<Subpartition>,
) -> Result<(), WriterStopped>
    requires supply { IsSupply supply.old }
    requires pass { IsTaskPass cell.now pass.old }
    requires open_end { is_finished (mine pass.old) ≡ false }
    ensures supply { IsSupply supply.new × IsSameSupply supply.old supply.new }
    ensures pass { IsTaskPass cell.now pass.new }
    ensures entered { OnOk result (mine pass.new ≡ mine pass.old ++ Finish ∷ []) }
    ensures stopped { OnErr result ((mine pass.new ≡ mine pass.old) × HasSeenFault supply.new) }
    ensures lending { lending_of supply.new ≡ lending_of supply.old }
{
    let mut watch = Watch::new();
    let mut pause = Pause::new();
    for _round in rt.forever() {
        if finish_in_turn(rt, cell, pass) {
            return Ok(());
        }
        if let Some(_) = watch.look(rt, supply.stop, &mut supply.stop_pass) {
            return Err(WriterStopped);
        }
        pause.wait(rt);
    }
    unreachable!()
}

/// Puts the buffer that is being filled, where it is not empty, and then the end.
pub(crate) fn close<R: Wait>(
    rt: &R,
    supply: &mut Supply<'_, '_>,
    cell: &TurnCell<Subpartition>,
    pass: &mut Pass<Subpartition>,
    part: &mut Part,
) -> Result<(), WriterStopped>
    requires supply { IsSupply supply.old }
    requires size { (opened_with cell.now).size ≡ supply.old.size }
    requires pass { IsTaskPass cell.now pass.old }
    requires part { IsPart supply.old.size part.old }
    requires is_open { IsOpenAt supply.old.size (mine pass.old) }
    ensures supply { IsSupply supply.new × IsSameSupply supply.old supply.new }
    ensures pass { IsTaskPass cell.now pass.new }
    ensures part { IsPart supply.old.size part.new }
    ensures finished { OnOk result (WasEndedAt supply.old.size (mine pass.old) (mine pass.new) (laid (mine pass.old) part.old)) }
    ensures stopped { OnErr result (WasStoppedAt supply.old.size Finish (mine pass.old) (mine pass.new) (laid (mine pass.old) part.old) × HasSeenFault supply.new) }
    ensures none_lost { NoneLostAt supply.old supply.new (mine pass.old) (mine pass.new) part.old part.new }
{
    put_part(rt, supply, cell, pass, part)?;
    finish_waiting(rt, supply, cell, pass)
}

// Puts an inline barrier of this number. Waits where there is no room.
fn put_barrier_waiting<R: Wait>(
    rt: &R,
    supply: &mut Supply<'_, '_>,
    cell: &TurnCell<Subpartition>,
    pass: &mut Pass<Subpartition>,
    k: u64,
) -> Result<(), WriterStopped>
    requires supply { IsSupply supply.old }
    requires pass { IsTaskPass cell.now pass.old }
    requires open_end { is_finished (mine pass.old) ≡ false }
    requires next { IsNextAt k (mine pass.old) }
    ensures supply { IsSupply supply.new × IsSameSupply supply.old supply.new }
    ensures pass { IsTaskPass cell.now pass.new }
    ensures entered { OnOk result (mine pass.new ≡ mine pass.old ++ PutInline k ∷ []) }
    ensures stopped { OnErr result ((mine pass.new ≡ mine pass.old) × HasSeenFault supply.new) }
    ensures lending { lending_of supply.new ≡ lending_of supply.old }
{
    let mut watch = Watch::new();
    let mut pause = Pause::new();
    for _round in rt.forever() {
        if barrier_in_turn(rt, cell, pass, k) {
            return Ok(());
        }
        if let Some(_) = watch.look(rt, supply.stop, &mut supply.stop_pass) {
            return Err(WriterStopped);
        }
        pause.wait(rt);
    }
    unreachable!()
}

/// Puts the buffer that is being filled, where it is not empty, and then an inline barrier of this number.
pub(crate) fn mark<R: Wait>(
    rt: &R,
    supply: &mut Supply<'_, '_>,
    cell: &TurnCell<Subpartition>,
    pass: &mut Pass<Subpartition>,
    part: &mut Part,
    k: u64,
) -> Result<(), WriterStopped>
    requires supply { IsSupply supply.old }
    requires size { (opened_with cell.now).size ≡ supply.old.size }
    requires pass { IsTaskPass cell.now pass.old }
    requires part { IsPart supply.old.size part.old }
    requires is_open { IsOpenAt supply.old.size (mine pass.old) }
    requires next { IsNextAt k (mine pass.old) }
    ensures supply { IsSupply supply.new × IsSameSupply supply.old supply.new }
    ensures pass { IsTaskPass cell.now pass.new }
    ensures part { IsPart supply.old.size part.new }
    ensures marked { OnOk result (WasMarkedAt supply.old.size k (mine pass.old) (mine pass.new) (laid (mine pass.old) part.old) × (bytes_in part.new ≡ [])) }
    ensures stopped { OnErr result (WasStoppedAt supply.old.size (PutInline k) (mine pass.old) (mine pass.new) (laid (mine pass.old) part.old) × HasSeenFault supply.new) }
    ensures none_lost { NoneLostAt supply.old supply.new (mine pass.old) (mine pass.new) part.old part.new }
{
    put_part(rt, supply, cell, pass, part)?;
    put_barrier_waiting(rt, supply, cell, pass, k)
}
