// What single words of a script spell.
ghost use Rattle.std.specs.Prelude.{◌≡◌, ℕ, ◌<◌, ◌≤◌, ◌^◌, IfSome, IfNone, bytes_eq, decimal, option_map};
ghost use Rattle.script_text.specs.Reading.{cut, number_of, is_text};

use crate::TEXT_MAX;
use itoa::Buffer;

// The first word of a line, and what follows it behind a space.
pub(crate) fn cut_word(line: &[u8]) -> (&[u8], Option<&[u8]>)
    ensures word { result.0.now ≡ (cut line.now).0 }
    ensures rest { option_map (λ rest. rest.now) result.1 ≡ (cut line.now).1 }
{
    match line.iter().position(|byte| *byte == b' ') {
        Some(space) => (&line[..space], Some(&line[space + 1..])),
        None => (line, None),
    }
}

// Whether the word is this text.
pub(crate) fn is(word: &[u8], text: &str) -> bool
    ensures { result ≡ bytes_eq word.now text.now }
{
    word == text.as_bytes()
}

// Whether the bytes may be a record's text.
pub(crate) fn is_text(bytes: &[u8]) -> bool
    ensures { result ≡ is_text bytes.now }
{
    bytes.len() <= TEXT_MAX && bytes.iter().all(|byte| matches!(*byte, 32..=126))
}

// The number within the bounds that the word spells in decimal.
pub(crate) fn number_of(word: &[u8], least: u32, most: u32) -> Option<u32>
    ensures { result ≡ number_of least most word.now }
{
    let number = long_number_of(word, u64::from(least), u64::from(most))?;
    Some(number as u32)
}

// The number within the bounds that the word spells in decimal.
pub(crate) fn long_number_of(word: &[u8], least: u64, most: u64) -> Option<u64>
    ensures value { result ≡ number_of least most word.now }
    ensures within { IfSome result (λ n. n ≤ most) }
{
    let number = decimal_of(word)?;
    if number < least || number > most {
        return None;
    }
    Some(number)
}

// The number that the word spells in decimal.
fn decimal_of(word: &[u8]) -> Option<u64>
    ensures some { IfSome result (λ n. word.now ≡ decimal n) }
    ensures none { IfNone result ((n : ℕ) → n < 2 ^ 64 → word.now ≡ decimal n → ⊥) }
{
    let Ok(text) = std::str::from_utf8(word) else {
        return None;
    };
    let Ok(number) = text.parse::<u64>() else {
        return None;
    };
    // A leading zero or a sign parses too, but isn't written back.
    let mut buffer = Buffer::new();
    if buffer.format(number).as_bytes() != word {
        return None;
    }
    Some(number)
}
