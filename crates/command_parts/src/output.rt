// Writes tables and faults to sinks.
ghost use Rattle.std.specs.Prelude.{◌≡◌, ◌≤◌, ◌++◌, [], ◌∷◌, flat_map, Some, IfOk, IfSome, OnOk, OnErr};
ghost use Rattle.flow_defs.specs.Tables.{row_text, table_text};
ghost use Rattle.command_parts.specs.FaultTexts.{fault_line, number_text, part_text};
ghost use Rattle.command_parts.specs.Front.{GotFront};
ghost use Rattle.outside.specs.Faults.{HasRisen};

use crate::fault::{Fault, Part};
use flow_defs::{Bytes, Table};
use itoa::Buffer;
use outside::Sink;
use std::alloc::{AllocError, Global};

/// The output took no more.
#[derive(Clone, Copy, Debug, PartialEq, Eq)]
pub struct OutputFault;

/// The table as it is printed.
pub fn table_text(alloc: Global, table: &Table) -> Result<Bytes, AllocError>
    ensures { IfOk result (λ text. text.items ≡ table_text table.now) }
{
    let mut text = Bytes::new(alloc);
    for row in table.rows() {
        add_row(&mut text, row.key.as_slice(), row.value)?;
    }
    Ok(text)
}

// Adds a row as it is printed.
fn add_row(text: &mut Bytes, key: &[u8], value: u64) -> Result<(), AllocError>
    ensures { OnOk result (text.new.items ≡ text.old.items ++ row_text (key.now, value)) }
{
    text.extend(key)?;
    text.push(b'\t')?;
    text.extend(Buffer::new().format(value).as_bytes())?;
    text.push(b'\n')
}

/// Writes all the bytes.
pub fn write_all<O: Sink>(out: &mut O, bytes: &[u8]) -> Result<(), OutputFault>
    // Whatever the result, it got a front of the bytes and nothing else.
    ensures front { IfSome (O.got out.old) (λ had. GotFront had bytes.now (O.got out.new)) }
    ensures told { OnOk result (IfSome (O.got out.old) (λ had. O.got out.new ≡ Some (had ++ bytes.now))) }
    ensures never_falls { O.faults out.old ≤ O.faults out.new }
    ensures failed { OnErr result (HasRisen (O.faults out.old) (O.faults out.new)) }
{
    let mut rest = bytes;
    'writes: while !rest.is_empty() {
        let Ok(count) = out.write(rest) else {
            return Err(OutputFault);
        };
        if count == 0 {
            return Err(OutputFault);
        }
        rest = &rest[count..];
    }
    Ok(())
}

/// Writes the line that tells of a fault, as far as the sink takes it.
pub fn tell<E: Sink>(err: &mut E, fault: Fault)
    // It got a front of the line and nothing else, and all of it where no fault of its own came.
    ensures front { IfSome (E.got err.old) (λ had. GotFront had (fault_line fault) (E.got err.new)) }
    ensures told { (HasRisen (E.faults err.old) (E.faults err.new) → ⊥) →
        IfSome (E.got err.old) (λ had. E.got err.new ≡ Some (had ++ fault_line fault)) }
{
    let parts = fault.text();
    // What a failing sink doesn't take is lost.
    let _ = write_line(err, &parts);
}

// Writes these parts of a line, one after another, and ends it.
fn write_line<O: Sink>(out: &mut O, parts: &[Part]) -> Result<(), OutputFault>
    ensures front { IfSome (O.got out.old) (λ had. GotFront had (flat_map part_text parts.now ++ 10 ∷ []) (O.got out.new)) }
    ensures told { OnOk result (IfSome (O.got out.old) (λ had. O.got out.new ≡ Some (had ++ (flat_map part_text parts.now ++ 10 ∷ [])))) }
    ensures never_falls { O.faults out.old ≤ O.faults out.new }
    ensures failed { OnErr result (HasRisen (O.faults out.old) (O.faults out.new)) }
{
    write_parts(out, parts)?;
    write_all(out, b"\n")
}

// Writes these parts, one after another.
fn write_parts<O: Sink>(out: &mut O, parts: &[Part]) -> Result<(), OutputFault>
    ensures front { IfSome (O.got out.old) (λ had. GotFront had (flat_map part_text parts.now) (O.got out.new)) }
    ensures told { OnOk result (IfSome (O.got out.old) (λ had. O.got out.new ≡ Some (had ++ flat_map part_text parts.now))) }
    ensures never_falls { O.faults out.old ≤ O.faults out.new }
    ensures failed { OnErr result (HasRisen (O.faults out.old) (O.faults out.new)) }
{
    for part in parts {
        write_part(out, *part)?;
    }
    Ok(())
}

// Writes the text of a part, and its number in decimal, where there is one.
fn write_part<O: Sink>(out: &mut O, part: Part) -> Result<(), OutputFault>
    ensures front { IfSome (O.got out.old) (λ had. GotFront had (part_text part) (O.got out.new)) }
    ensures told { OnOk result (IfSome (O.got out.old) (λ had. O.got out.new ≡ Some (had ++ part_text part))) }
    ensures never_falls { O.faults out.old ≤ O.faults out.new }
    ensures failed { OnErr result (HasRisen (O.faults out.old) (O.faults out.new)) }
{
    let mut buffer = Buffer::new();
    let number = digits(&mut buffer, part.number);
    write_all(out, part.text.as_bytes())?;
    write_all(out, number.as_bytes())
}

// The number in decimal, where there is one.
fn digits(buffer: &mut Buffer, number: Option<u64>) -> &str
    ensures { result.now ≡ number_text number }
{
    match number {
        Some(number) => buffer.format(number),
        None => "",
    }
}
