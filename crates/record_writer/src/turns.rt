// Turns of a task at the cells of its partition.
ghost use Rattle.std.specs.Prelude.{◌≡◌, [], ◌∷◌, ◌++◌, false, length, OnOk, IfErr, IsTrue, IsFalse};
ghost use Rattle.turn_cell.specs.Passes.{IsPassOf, IsTurnOf, HasEntered, opened_with, mine, number, seen};
ghost use Rattle.subpartition.specs.declared.entry.SendEntry.TheVariants.{Put, PutInline, Finish};
ghost use Rattle.subpartition.specs.Queues.{bytes_of, last_bytes};
ghost use Rattle.subpartition.specs.Sending.{is_finished};
ghost use Rattle.subpartition.specs.Standing.{QueueStandsFor};
ghost use Rattle.record_writer.specs.Channels.{IsTaskPass, IsNextAt};

use std::marker::Brand;
use std::sync::Wait;
use subpartition::laws::{calls_add_entries, calls_tell};
use subpartition::{Filled, SendEntry, Subpartition};
use turn_cell::{Named, Pass, Turn, TurnCell};

// Ends the turn in which the last item was put, a buffer.
fn leave_put<E: Named<SendEntry>>(turn: Turn<Subpartition>)
    requires entry { E.entry ≡ Put (last_bytes turn.state.items) }
    requires turn { IsTurnOf turn.cell.now turn.pass.now }
    requires state { QueueStandsFor turn.state (seen turn.pass.now ++ (number turn.pass.now, Put (last_bytes turn.state.items)) ∷ []) }
    requires size { turn.state.size ≡ (opened_with turn.cell.now).size }
    ensures pass { IsPassOf turn.entry.cell.now turn.exit.1.0.now }
    ensures entered { HasEntered (Put (last_bytes turn.entry.state.items)) turn.entry.pass.now turn.exit.1.0.now }
{
    turn.leave::<E>();
}

/// Puts a buffer in a turn, or hands it back where there is no room.
pub(crate) fn put_in_turn<R: Wait>(
    rt: &R,
    cell: &TurnCell<Subpartition>,
    pass: &mut Pass<Subpartition>,
    filled: Filled,
) -> Result<(), Filled>
    requires pass { IsTaskPass cell.now pass.old }
    requires open_end { is_finished (mine pass.old) ≡ false }
    requires size { length filled.segment ≡ (opened_with cell.now).size }
    ensures pass { IsTaskPass cell.now pass.new }
    ensures entered { OnOk result (mine pass.new ≡ mine pass.old ++ Put (bytes_of filled) ∷ []) }
    ensures refused { IfErr result (λ back. (back ≡ filled) × (mine pass.new ≡ mine pass.old)) }
{
    let mut turn = cell.enter(rt, pass);
    calls_add_entries();
    calls_tell();
    if turn.state().spare() == 0 {
        turn.leave_as_is();
        return Err(filled);
    }
    turn.state().put(filled);
    leave_put::<Brand>(turn);
    Ok(())
}

// Ends the turn in which this barrier was put.
fn leave_barrier<E: Named<SendEntry>>(turn: Turn<Subpartition>, k: u64)
    requires entry { E.entry ≡ PutInline k }
    requires turn { IsTurnOf turn.cell.now turn.pass.now }
    requires state { QueueStandsFor turn.state (seen turn.pass.now ++ (number turn.pass.now, PutInline k) ∷ []) }
    requires size { turn.state.size ≡ (opened_with turn.cell.now).size }
    ensures pass { IsPassOf turn.entry.cell.now turn.exit.1.0.now }
    ensures entered { HasEntered (PutInline k) turn.entry.pass.now turn.exit.1.0.now }
{
    turn.leave::<E>();
}

/// Puts an inline barrier of this number in a turn, and answers whether there was room.
pub(crate) fn barrier_in_turn<R: Wait>(
    rt: &R,
    cell: &TurnCell<Subpartition>,
    pass: &mut Pass<Subpartition>,
    k: u64,
) -> bool
    requires pass { IsTaskPass cell.now pass.old }
    requires open_end { is_finished (mine pass.old) ≡ false }
    requires next { IsNextAt k (mine pass.old) }
    ensures pass { IsTaskPass cell.now pass.new }
    ensures entered { IsTrue result → mine pass.new ≡ mine pass.old ++ PutInline k ∷ [] }
    ensures refused { IsFalse result → mine pass.new ≡ mine pass.old }
{
    let mut turn = cell.enter(rt, pass);
    calls_add_entries();
    calls_tell();
    if turn.state().spare() == 0 {
        turn.leave_as_is();
        return false;
    }
    turn.state().put_inline(k);
    leave_barrier::<Brand>(turn, k);
    true
}

/// Puts the end in a turn, and answers whether there was room.
pub(crate) fn finish_in_turn<R: Wait>(
    rt: &R,
    cell: &TurnCell<Subpartition>,
    pass: &mut Pass<Subpartition>,
) -> bool
    requires pass { IsTaskPass cell.now pass.old }
    requires open_end { is_finished (mine pass.old) ≡ false }
    ensures pass { IsTaskPass cell.now pass.new }
    ensures entered { IsTrue result → mine pass.new ≡ mine pass.old ++ Finish ∷ [] }
    ensures refused { IsFalse result → mine pass.new ≡ mine pass.old }
{
    let mut turn = cell.enter(rt, pass);
    calls_add_entries();
    calls_tell();
    if turn.state().spare() == 0 {
        turn.leave_as_is();
        return false;
    }
    turn.state().finish();
    turn.leave::<Brand>();
    true
}
