// The functions of the stages that there are. One that is refused memory may have added some of what
// it gives.
// `field` reads its argument anew at each record. `words` splits byte by byte; with memchr it measured no
// faster.
ghost use Rattle.std.specs.Prelude.{◌≡◌, ◌≤◌, ◌++◌, OnOk};
ghost use Rattle.std.specs.Str.Parse.{digits_value};
ghost use Rattle.stage_fns.specs.Meets.{records};
ghost use Rattle.flow_defs.specs.Stages.{IsArgument, given};
ghost use Rattle.flow_defs.specs.declared.job.StageKind.TheVariants.{Words, Upper, Keep, Field};

use flow_defs::{Bytes, ListOf};
use std::alloc::{AllocError, Global};
use std::str;

/// Adds the record's pieces between spaces, without the empty ones.
pub fn words(
    alloc: Global,
    _arg: &[u8],
    record: &[u8],
    list: &mut ListOf<Bytes>,
) -> Result<(), AllocError>
    ensures { OnOk result (records list.new ≡ records list.old ++ given Words _arg.now «record».now) }
{
    for piece in record.split(|b| *b == b' ') {
        if !piece.is_empty() {
            list.push(Bytes::of(alloc, piece)?)?;
        }
    }
    Ok(())
}

/// Adds the record with its lower case letters of ASCII raised.
pub fn upper(
    alloc: Global,
    _arg: &[u8],
    record: &[u8],
    list: &mut ListOf<Bytes>,
) -> Result<(), AllocError>
    ensures { OnOk result (records list.new ≡ records list.old ++ given Upper _arg.now «record».now) }
{
    let mut raised = Bytes::of(alloc, record)?;
    raised.as_mut_slice().make_ascii_uppercase();
    Ok(list.push(raised)?)
}

/// Adds the record where it begins with the prefix.
pub fn keep(
    alloc: Global,
    prefix: &[u8],
    record: &[u8],
    list: &mut ListOf<Bytes>,
) -> Result<(), AllocError>
    ensures { OnOk result (records list.new ≡ records list.old ++ given Keep prefix.now «record».now) }
{
    if record.starts_with(prefix) {
        list.push(Bytes::of(alloc, record)?)?;
    }
    Ok(())
}

/// Adds the piece between commas that the argument counts, from 1, where there are so many.
pub fn field(
    alloc: Global,
    arg: &[u8],
    record: &[u8],
    list: &mut ListOf<Bytes>,
) -> Result<(), AllocError>
    requires { IsArgument Field arg.now }
    ensures { OnOk result (records list.new ≡ records list.old ++ given Field arg.now «record».now) }
{
    if let Some(piece) = record.split(|b| *b == b',').nth(place_of(arg) - 1) {
        list.push(Bytes::of(alloc, piece)?)?;
    }
    Ok(())
}

// The number that the argument of `field` writes.
fn place_of(arg: &[u8]) -> usize
    requires { IsArgument Field arg.now }
    ensures value { result ≡ digits_value 10 arg.now }
    ensures least { 1 ≤ result }
{
    let Ok(text) = str::from_utf8(arg) else {
        unreachable!()
    };
    let Ok(place) = text.parse() else {
        unreachable!()
    };
    place
}
