// What aggregates make of records.
ghost use Rattle.std.specs.Prelude.{◌≡◌, ◌+◌, ◌<◌, ◌≤◌, length, take, drop, IfSome};
ghost use Rattle.std.specs.Option.{option_map};
ghost use Rattle.flow_defs.specs.Aggregates.{parted, key_of, value_of as value_in, number as number_in, folded};

use crate::AggKind;
use memchr::memrchr;

/// How many of the record's first bytes are its key.
pub fn key_len(agg: AggKind, line: &[u8]) -> usize
    ensures within { result ≤ length line.now }
    ensures key { take result line.now ≡ key_of agg line.now }
{
    match agg {
        AggKind::Count => line.len(),
        AggKind::Sum | AggKind::Max => match last_equals(line) {
            Some(place) => place,
            None => line.len(),
        },
    }
}

/// The value of a record.
pub fn value_of(agg: AggKind, line: &[u8]) -> u64
    ensures { result ≡ value_in agg line.now }
{
    match agg {
        AggKind::Count => 1,
        AggKind::Sum | AggKind::Max => match last_equals(line) {
            Some(place) => number(&line[place + 1..]),
            None => 0,
        },
    }
}

// Where the last `=` of a record stands.
fn last_equals(line: &[u8]) -> Option<usize>
    ensures within { IfSome result (λ place. place < length line.now) }
    ensures parts { parted line.now ≡ option_map (λ place. (take place line.now, drop (place + 1) line.now)) result }
{
    memrchr(b'=', line)
}

// A number in decimal digits, modulo 2^64, or 0 where another byte stands among them.
fn number(bytes: &[u8]) -> u64
    ensures { result ≡ number_in bytes.now }
{
    let mut number: u64 = 0;
    for byte in bytes {
        if !byte.is_ascii_digit() {
            return 0;
        }
        number = number.wrapping_mul(10).wrapping_add((*byte - b'0') as u64);
    }
    number
}

/// The value of a key that had an old one, with a new one. A key's first value is folded onto 0.
pub fn fold_value(agg: AggKind, old: u64, new: u64) -> u64
    ensures { result ≡ folded agg old new }
{
    match agg {
        AggKind::Count | AggKind::Sum => old.wrapping_add(new),
        AggKind::Max => old.max(new),
    }
}
