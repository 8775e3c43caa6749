// Makes lines of a seed.
ghost use Rattle.std.specs.Prelude.{◌≡◌, ◌++◌, IfOk, OnOk};
ghost use Rattle.line_generator.specs.Generated.{state_next, line_text, generated};

use flow_defs::Bytes;
use itoa::Buffer;
use std::alloc::{AllocError, Global};

/// The text of so many lines, each with its newline. The same seed gives the same lines, and more lines begin
/// with the fewer ones. A line has 6 to 9 bytes, so 2,000,000 lines have at most 18 MB.
pub fn generate(alloc: Global, lines: u64, seed: u64) -> Result<Bytes, AllocError>
    ensures { IfOk result (λ text. text.items ≡ generated seed lines) }
{
    let mut text = Bytes::new(alloc);
    let mut number = seed;
    let mut made = 0;
    'lines: while made < lines {
        number = next(number);
        add_line(&mut text, number)?;
        made += 1;
    }
    Ok(text)
}

// The number behind another.
fn next(number: u64) -> u64
    ensures { result ≡ state_next number }
{
    number
        .wrapping_mul(6_364_136_223_846_793_005)
        .wrapping_add(1_442_695_040_888_963_407)
}

// Adds the line of a number.
fn add_line(text: &mut Bytes, number: u64) -> Result<(), AllocError>
    ensures { OnOk result (text.new.items ≡ text.old.items ++ line_text number) }
{
    text.push(b'w')?;
    text.extend(Buffer::new().format(number / (1 << 33) % 1_000).as_bytes())?;
    text.extend(b" w")?;
    text.extend(Buffer::new().format(number / (1 << 48) % 100).as_bytes())?;
    text.push(b'\n')
}
