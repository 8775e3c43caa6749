// A journal that is written by turns, with entries of the caller's own values.
ghost use Rattle.std.specs.Prelude.{◌≡◌, ◌==◌, true, ◌++◌, [], ◌∷◌, OnOk, OnErr, IfSome};
ghost use Rattle.std.specs.List.{list_any};
ghost use Rattle.turn_cell.specs.Passes.{IsPassOf, IsTurnOf, HasEntered, mine, number, seen};
ghost use Rattle.turn_tests.specs.Journals.{values};

use fixtures::give_back;
use flow_defs::ListOf;
use std::alloc::{AllocError, Global};
use std::marker::Brand;
use std::sync::Wait;
use turn_cell::{Named, Pass, Turn, TurnCell, Turned};

/// The entry of a turn that wrote.
pub struct Written {
    pub value: u64,
}

/// What was written, in order.
#[derive(Drop)]
pub struct Journal {
    pub items: ListOf<u64>,
}

impl Turned for Journal {
    type Entry = Written;

    type Fixed = ();

    ghost stands = { λ journal history. journal.items.items ≡ values history };

    ghost fixed = { λ _. tt };
}

impl Named<Written> for Brand {
    ghost entry = { record { value = 0 } };
}

// Ends the turn with this entry.
fn leave_written<E: Named<Written>>(turn: Turn<Journal>, value: u64)
    requires entry { E.entry ≡ record { value = value } }
    requires turn { IsTurnOf turn.cell.now turn.pass.now }
    requires state { turn.state.items.items ≡ values (seen turn.pass.now) ++ value ∷ [] }
    ensures pass { IsPassOf turn.entry.cell.now turn.exit.1.0.now }
    ensures entered { HasEntered (record { value = value }) turn.entry.pass.now turn.exit.1.0.now }
{
    turn.leave::<E>();
}

/// Writes a value, in a turn.
pub fn write<R: Wait>(
    rt: &R,
    cell: &TurnCell<Journal>,
    pass: &mut Pass<Journal>,
    value: u64,
) -> Result<(), AllocError>
    requires { IsPassOf cell.now pass.old }
    ensures pass { IsPassOf cell.now pass.new × (number pass.new ≡ number pass.old) }
    ensures written { OnOk result (mine pass.new ≡ mine pass.old ++ record { value = value } ∷ []) }
    ensures refused { OnErr result (mine pass.new ≡ mine pass.old) }
{
    let mut turn = cell.enter(rt, pass);
    match turn.state().items.push(value) {
        Ok(()) => {
            leave_written::<Brand>(turn, value);
            Ok(())
        }
        Err(failed) => {
            turn.leave_as_is();
            Err(failed)
        }
    }
}

/// Whether the journal has this value at the pass's turn. The pass has seen it written.
pub fn shows<R: Wait>(
    rt: &R,
    cell: &TurnCell<Journal>,
    pass: &mut Pass<Journal>,
    value: u64,
) -> bool
    requires pass { IsPassOf cell.now pass.old }
    requires seen { list_any (λ written. written == value) (values (seen pass.old)) ≡ true }
    ensures pass { IsPassOf cell.now pass.new × (number pass.new ≡ number pass.old) }
    ensures shown { result ≡ true }
{
    let mut turn = cell.enter(rt, pass);
    let shown = turn.state().items.as_slice().contains(&value);
    turn.leave_as_is();
    shown
}

// Writes a value, and reads it at the next turn.
fn write_then_read<R: Wait>(
    rt: &R,
    cell: &TurnCell<Journal>,
    pass: &mut Pass<Journal>,
    value: u64,
) -> Option<bool>
    requires { IsPassOf cell.now pass.old }
    ensures pass { IsPassOf cell.now pass.new × (number pass.new ≡ number pass.old) }
    ensures shown { IfSome result (λ shown. shown ≡ true) }
{
    match write(rt, cell, pass, value) {
        Ok(()) => Some(shows(rt, cell, pass, value)),
        Err(_) => None,
    }
}

// One pass writes a value, and the other, when they have met, reads it at its next turn.
fn write_then_meet<R: Wait>(
    rt: &R,
    cell: &TurnCell<Journal>,
    writer: &mut Pass<Journal>,
    reader: &mut Pass<Journal>,
    value: u64,
) -> Option<bool>
    requires { IsPassOf cell.now writer.old × IsPassOf cell.now reader.old }
    ensures writer { IsPassOf cell.now writer.new × (number writer.new ≡ number writer.old) }
    ensures reader { IsPassOf cell.now reader.new × (number reader.new ≡ number reader.old) }
    ensures shown { IfSome result (λ shown. shown ≡ true) }
{
    match write(rt, cell, writer, value) {
        Ok(()) => {
            cell.meet(writer, reader);
            Some(shows(rt, cell, reader, value))
        }
        Err(_) => None,
    }
}

/// A pass writes 5, and reads it at its next turn. None is want of memory.
pub fn write_and_read<R: Wait>(rt: &R, alloc: Global) -> Option<bool>
    ensures { IfSome result (λ shown. shown ≡ true) }
{
    let journal = Journal {
        items: ListOf::new(alloc),
    };
    let Ok((cell, mut passes)) = TurnCell::new(alloc, journal, 1) else {
        return None;
    };
    let mut pass = passes.take_last();
    let shown = write_then_read(rt, &cell, &mut pass, 5);
    give_back(&mut passes, pass);
    let _ = cell.close(passes);
    shown
}

/// A pass writes 5, and another, when they have met, reads it. None is want of memory.
pub fn write_and_meet<R: Wait>(rt: &R, alloc: Global) -> Option<bool>
    ensures { IfSome result (λ shown. shown ≡ true) }
{
    let journal = Journal {
        items: ListOf::new(alloc),
    };
    let Ok((cell, mut passes)) = TurnCell::new(alloc, journal, 2) else {
        return None;
    };
    let mut reader = passes.take_last();
    let mut writer = passes.take_last();
    let shown = write_then_meet(rt, &cell, &mut writer, &mut reader, 5);
    give_back(&mut passes, writer);
    give_back(&mut passes, reader);
    let _ = cell.close(passes);
    shown
}
