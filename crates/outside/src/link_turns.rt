// Turns of the two ends of a link in memory. The first pass writes and the second reads.
ghost use Rattle.std.specs.Prelude.{◌≡◌, ◌<◌, ◌≤◌, ◌++◌, [], ◌∷◌, length, take, IfSome, IfNone};
ghost use Rattle.turn_cell.specs.Passes.{IsPassOf, IsTurnOf, HasEntered, mine, number, seen};
ghost use Rattle.outside.specs.declared.ring.LinkEntry.TheVariants.{Wrote, Read, Finished};
ghost use Rattle.outside.specs.Rings.{Carries, IsFront, IsAll};

use crate::bells::Bells;
use crate::{LINK_ROOM, LinkEntry, Pause, Ring};
use std::marker::Brand;
use std::sync::Wait;
use turn_cell::{Named, Pass, Turn, TurnCell};

// Ends the turn in which these bytes were written.
fn leave_wrote<E: Named<LinkEntry>>(turn: Turn<Ring>, bytes: &[u8])
    requires entry { E.entry ≡ Wrote bytes.now }
    requires turn { IsTurnOf turn.cell.now turn.pass.now }
    requires state { Carries turn.state (seen turn.pass.now ++ (number turn.pass.now, Wrote bytes.now) ∷ []) }
    ensures pass { IsPassOf turn.entry.cell.now turn.exit.1.0.now }
    ensures entered { HasEntered (Wrote bytes.now) turn.entry.pass.now turn.exit.1.0.now }
{
    // Only the contract speaks of them.
    let _bytes = bytes;
    turn.leave::<E>();
}

// Ends the turn in which these bytes were read.
fn leave_read<E: Named<LinkEntry>>(turn: Turn<Ring>, bytes: &[u8])
    requires entry { E.entry ≡ Read bytes.now }
    requires turn { IsTurnOf turn.cell.now turn.pass.now }
    requires state { Carries turn.state (seen turn.pass.now ++ (number turn.pass.now, Read bytes.now) ∷ []) }
    ensures pass { IsPassOf turn.entry.cell.now turn.exit.1.0.now }
    ensures entered { HasEntered (Read bytes.now) turn.entry.pass.now turn.exit.1.0.now }
{
    // Only the contract speaks of them.
    let _bytes = bytes;
    turn.leave::<E>();
}

// Writes what fits, in one turn. None is a ring that is full.
fn try_write<R: Wait>(
    rt: &R,
    cell: &TurnCell<Ring>,
    pass: &mut Pass<Ring>,
    bytes: &[u8],
) -> Option<usize>
    requires some { 0 < length bytes.now }
    requires pass { IsPassOf cell.now pass.old × (number pass.old ≡ 0) }
    ensures pass { IsPassOf cell.now pass.new × (number pass.new ≡ 0) }
    ensures count { IfSome result (λ n. (0 < n) × (n ≤ length bytes.now)) }
    ensures wrote { IfSome result (λ n. mine pass.new ≡ mine pass.old ++ Wrote (take n bytes.now) ∷ []) }
    ensures full { IfNone result (mine pass.new ≡ mine pass.old) }
{
    let mut turn = cell.enter(rt, pass);
    if turn.state().spare() == 0 {
        turn.leave_as_is();
        return None;
    }
    let count = turn.state().add(bytes);
    leave_wrote::<Brand>(turn, &bytes[..count]);
    Some(count)
}

// Reads what there is, in one turn. None is a ring with no bytes to which more may be written.
fn try_read<R: Wait>(
    rt: &R,
    cell: &TurnCell<Ring>,
    pass: &mut Pass<Ring>,
    room: &mut [u8],
) -> Option<usize>
    requires some { 0 < length room.old }
    requires pass { IsPassOf cell.now pass.old × (number pass.old ≡ 1) }
    ensures pass { IsPassOf cell.now pass.new × (number pass.new ≡ 1) }
    ensures count { IfSome result (λ n. n ≤ length room.old) }
    ensures read { IfSome result (λ n. 0 < n → mine pass.new ≡ mine pass.old ++ Read (take n room.new) ∷ []) }
    ensures front { IsFront (seen pass.new) }
    ensures end { IfSome result (λ n. n ≡ 0 → IsAll (seen pass.new) × (mine pass.new ≡ mine pass.old)) }
    ensures empty { IfNone result (mine pass.new ≡ mine pass.old) }
{
    let mut turn = cell.enter(rt, pass);
    if turn.state().is_empty() {
        let finished = turn.state().is_finished();
        turn.leave_as_is();
        return if finished { Some(0) } else { None };
    }
    let count = turn.state().take(room);
    leave_read::<Brand>(turn, &room[..count]);
    Some(count)
}

/// Writes a front of these bytes, of at least one. It waits while the ring is full.
pub(crate) fn write_some<R: Wait>(
    rt: &R,
    cell: &TurnCell<Ring>,
    pass: &mut Pass<Ring>,
    bells: &Bells,
    bytes: &[u8],
) -> usize
    requires some { 0 < length bytes.now }
    requires pass { IsPassOf cell.now pass.old × (number pass.old ≡ 0) }
    ensures pass { IsPassOf cell.now pass.new × (number pass.new ≡ 0) }
    ensures count { (0 < result) × (result ≤ length bytes.now) }
    ensures wrote { mine pass.new ≡ mine pass.old ++ Wrote (take result bytes.now) ∷ [] }
{
    let mut pause = Pause::new();
    for _round in rt.forever() {
        if let Some(count) = try_write(rt, cell, pass, bytes) {
            bells.reader.unpark();
            return count;
        }
        pause.wait_for(rt, &bells.writer);
    }
    unreachable!()
}

/// Reads at least one byte, or none where the end is reached. It waits while there is neither.
pub(crate) fn read_some<R: Wait>(
    rt: &R,
    cell: &TurnCell<Ring>,
    pass: &mut Pass<Ring>,
    bells: &Bells,
    room: &mut [u8],
) -> usize
    requires some { 0 < length room.old }
    requires pass { IsPassOf cell.now pass.old × (number pass.old ≡ 1) }
    ensures pass { IsPassOf cell.now pass.new × (number pass.new ≡ 1) }
    ensures count { result ≤ length room.old }
    ensures read { 0 < result → mine pass.new ≡ mine pass.old ++ Read (take result room.new) ∷ [] }
    ensures front { IsFront (seen pass.new) }
    ensures end { result ≡ 0 → IsAll (seen pass.new) × (mine pass.new ≡ mine pass.old) }
{
    let mut pause = Pause::new();
    for _round in rt.forever() {
        if let Some(count) = try_read(rt, cell, pass, room) {
            bells.writer.unpark();
            return count;
        }
        pause.wait_for(rt, &bells.reader);
    }
    unreachable!()
}

/// Says that nothing more is written.
pub(crate) fn finish_ring<R: Wait>(
    rt: &R,
    cell: &TurnCell<Ring>,
    pass: &mut Pass<Ring>,
    bells: &Bells,
)
    requires pass { IsPassOf cell.now pass.old × (number pass.old ≡ 0) }
    ensures pass { IsPassOf cell.now pass.new × (number pass.new ≡ 0) }
    ensures finished { mine pass.new ≡ mine pass.old ++ Finished ∷ [] }
{
    let mut turn = cell.enter(rt, pass);
    turn.state().finish();
    turn.leave::<Brand>();
    bells.reader.unpark();
}
