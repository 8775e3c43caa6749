// Whether two pieces together are the encodings of records.
ghost use Rattle.std.specs.Prelude.{◌≡◌, ◌+◌, ◌<◌, ◌≤◌, ◌++◌, ◌↔◌, ℕ, List, length, take, drop, slice_index, IsTrue};
ghost use Rattle.flow_defs.specs.Records.{IsSpans};
ghost use Rattle.record_spans.specs.Fronts.{IsFront};

use crate::reader::{Front, front_length};
use flow_defs::RECORD_MAX;

/// Whether two pieces, laid end to end, are the encodings of records and nothing else. It takes no memory. The cost
/// is in proportion to the number of records.
pub fn are_records(first: &[u8], second: &[u8]) -> bool
    ensures { IsTrue result ↔ ((records : List (List ℕ)) × IsSpans (first.now ++ second.now) records) }
{
    let total = first.len() + second.len();
    let mut place = 0;
    'records: while place < total {
        let Front::Record { len } = front_at(first, second, place) else {
            return false;
        };
        place += 4 + len;
    }
    true
}

// What two pieces, laid end to end, begin with from a place on.
fn front_at(first: &[u8], second: &[u8], place: usize) -> Front
    requires { place ≤ length first.now + length second.now }
    ensures { IsFront (drop place (first.now ++ second.now)) result }
{
    let left = first.len() + second.len() - place;
    if left < 4 {
        return Front::Cut;
    }
    let len = front_length(&head_at(first, second, place));
    if len as usize > RECORD_MAX {
        return Front::TooLong { len };
    }
    if left - 4 < len as usize {
        return Front::Cut;
    }
    Front::Record { len: len as usize }
}

// The four bytes at a place of two pieces.
fn head_at(first: &[u8], second: &[u8], place: usize) -> [u8; 4]
    requires { place + 4 ≤ length first.now + length second.now }
    ensures { result ≡ take 4 (drop place (first.now ++ second.now)) }
{
    [
        byte_at(first, second, place),
        byte_at(first, second, place + 1),
        byte_at(first, second, place + 2),
        byte_at(first, second, place + 3),
    ]
}

// The byte at a place of two pieces.
fn byte_at(first: &[u8], second: &[u8], place: usize) -> u8
    requires { place < length first.now + length second.now }
    ensures { result ≡ slice_index (first.now ++ second.now) place }
{
    if place < first.len() {
        first[place]
    } else {
        second[place - first.len()]
    }
}
