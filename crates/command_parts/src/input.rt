// Reads files to their ends.
ghost use Rattle.std.specs.Prelude.{◌≡◌, ◌≢◌, ◌<◌, ◌≤◌, ◌^◌, Err, IfOk, IfSome, OnOk, length};
ghost use Rattle.outside.specs.Faults.{HasRisen};

use flow_defs::Bytes;
use outside::{Failed, Files, FindFault, Source};
use std::alloc::{AllocError, Global};

/// How many bytes are asked for at once.
pub const READ: usize = 65_536;

/// Why an input was not read to its end.
#[derive(Clone, Copy, Debug, PartialEq, Eq)]
pub enum InputFault {
    Failed,
    /// It has more bytes than it may have.
    TooBig,
    /// A line is longer than a record may be.
    LongLine,
    Memory,
}

impl From<AllocError> for InputFault {
    ghost use Rattle.command_parts.specs.declared.input.InputFault.TheVariants.{Memory};

    ghost from_gives = { λ _ e. e ≡ Memory };

    fn from(_: AllocError) -> Self {
        InputFault::Memory
    }
}

impl From<Failed> for InputFault {
    ghost use Rattle.command_parts.specs.declared.input.InputFault.TheVariants.{Failed};

    ghost from_gives = { λ _ e. e ≡ Failed };

    fn from(_: Failed) -> Self {
        InputFault::Failed
    }
}

impl From<FindFault> for InputFault {
    ghost use Rattle.command_parts.specs.Faults.{of_find};

    ghost from_gives = { λ fault e. e ≡ of_find fault };

    fn from(fault: FindFault) -> Self {
        match fault {
            FindFault::Failed => InputFault::Failed,
            FindFault::Memory => InputFault::Memory,
        }
    }
}

/// The bytes of the file of this name, of which there are at most so many.
pub fn read_file<F: Files>(
    alloc: Global,
    files: &mut F,
    name: &str,
    most: usize,
) -> Result<Bytes, InputFault>
    requires { most < 2 ^ 32 }
    ensures told { IfOk result (λ bytes. IfSome (F.contents files.old name.now) (λ held. bytes.items ≡ held)) }
    ensures fits { IfOk result (λ bytes. length bytes.items ≤ most) }
    ensures limit { result ≡ Err InputFault.TooBig → IfSome (F.contents files.old name.now) (λ held. most < length held) }
    ensures no_lines { result ≢ Err InputFault.LongLine }
    ensures same { F.contents files.new ≡ F.contents files.old }
    ensures never_falls { F.faults files.old ≤ F.faults files.new }
    ensures failed { result ≡ Err InputFault.Failed → HasRisen (F.faults files.old) (F.faults files.new) }
    ensures given_back { F.lent files.new ≡ F.lent files.old }
{
    let mut input = files.find(alloc, name)?;
    let bytes = read_all(alloc, &mut input, most);
    files.back(input);
    bytes
}

// All that is left of the source, where it is at most so many bytes.
fn read_all<S: Source>(alloc: Global, source: &mut S, most: usize) -> Result<Bytes, InputFault>
    requires { most < 2 ^ 32 }
    ensures told { IfOk result (λ bytes. IfSome (S.left source.old) (λ left. bytes.items ≡ left)) }
    ensures fits { IfOk result (λ bytes. length bytes.items ≤ most) }
    ensures limit { result ≡ Err InputFault.TooBig → IfSome (S.left source.old) (λ left. most < length left) }
    ensures no_lines { result ≢ Err InputFault.LongLine }
    ensures never_falls { S.faults source.old ≤ S.faults source.new }
    ensures failed { result ≡ Err InputFault.Failed → HasRisen (S.faults source.old) (S.faults source.new) }
{
    let mut bytes = Bytes::new(alloc);
    let mut room = [0; READ];
    'reads: while bytes.as_slice().len() <= most {
        let count = source.read(&mut room)?;
        if count == 0 {
            return Ok(bytes);
        }
        bytes.extend(&room[..count])?;
    }
    Err(InputFault::TooBig)
}
