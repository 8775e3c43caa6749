// Cuts bytes into lines.
ghost use Rattle.std.specs.Prelude.{◌≡◌, ℕ, List, ◌∷◌, ◌++◌, IfSome, IfNone};
ghost use Rattle.flow_defs.specs.Lines.{lines, onto_first_line};

use memchr::memchr;

/// The bytes before the first newline, and those after it.
///
/// Whatever comes after these bytes, the first part is then their first line, and the lines of the
/// second part follow it. Without a newline all bytes belong to the line that goes on behind them. The
/// cost is in proportion to the first part.
pub fn cut_line(bytes: &[u8]) -> Option<(&[u8], &[u8])>
    ensures cut { IfSome result (λ parts. bytes.now ≡ parts.0.now ++ 10 ∷ parts.1.now) }
    ensures line { IfSome result (λ parts. (more : List ℕ) →
        lines (bytes.now ++ more) ≡ parts.0.now ∷ lines (parts.1.now ++ more)) }
    ensures none { IfNone result ((more : List ℕ) →
        lines (bytes.now ++ more) ≡ onto_first_line bytes.now (lines more)) }
{
    let newline = memchr(b'\n', bytes)?;
    Some((&bytes[..newline], &bytes[newline + 1..]))
}
