// Gives the records of bytes that come in pieces.
ghost use Rattle.std.specs.Prelude.{◌≡◌, ◌≢◌, ◌≤◌, ◌↔◌, ℕ, List, [], ◌∷◌, ◌++◌, length, take, drop, Ok, Err, None, IfOk, IfSome, IfNone, OnOk, OnErr};
ghost use Rattle.flow_defs.specs.Records.{IsSpans, length_bytes};
ghost use Rattle.record_spans.specs.Fronts.{IsFront};
ghost use Rattle.record_spans.specs.Spans.{BeginsWith, BeginsTooLong, HasNoRecord, IsFirstSpan, IsSpannedByNone, HasGiven};
ghost use Rattle.record_spans.specs.declared.reader.NextFault.TheVariants.{Memory};

use flow_defs::{Bytes, RECORD_MAX};
use std::alloc::{AllocError, Global};
use std::marker::Model;
use thiserror::Error;

/// Why `Reader::next` gave no answer.
#[derive(Clone, Copy, Debug, PartialEq, Eq, Error)]
pub enum NextFault {
    /// The bytes begin with a length of more than `RECORD_MAX` bytes.
    #[error("a record of {len} bytes is too long")]
    TooLong { len: u32 },
    #[error("out of memory")]
    Memory,
}

impl From<AllocError> for NextFault {
    ghost from_gives = { λ _ e. e ≡ Memory };

    fn from(_: AllocError) -> Self {
        NextFault::Memory
    }
}

/// Takes bytes in pieces of any length, and gives the records whose encodings they are.
///
/// Contracts see the bytes that were fed and not given as records. Fed n bytes in all it does work
/// in proportion to n, and holds at most twice the bytes of the longest record and piece.
#[derive(Debug, Drop)]
pub struct Reader {
    alloc: Global,
    bytes: Vec<u8>,
    // How many of the bytes were given.
    start: usize,
}

impl Model for Reader {
    ghost use Rattle.std.specs.Prelude.{ℕ, List, ◌≤◌, length, drop};

    ghost Value = { List ℕ };

    ghost view = { λ r. drop r.start r.bytes.items };

    ghost invariant = { λ r. r.start ≤ length r.bytes.items };
}

impl Reader {
    /// A reader that holds nothing, and takes no memory.
    pub fn new(alloc: Global) -> Self
        ensures rest { result ≡ [] }
        ensures account { HasGiven [] [] result }
    {
        Reader {
            alloc,
            bytes: Vec::new(alloc),
            start: 0,
        }
    }

    /// Adds a piece at the end of the bytes.
    pub fn feed(&mut self, piece: &[u8]) -> Result<(), AllocError>
        ensures ok { OnOk result (self.new ≡ self.old ++ piece.now) }
        ensures err { OnErr result (self.new ≡ self.old) }

        // The records given and then the rest are the bytes fed.
        ensures account { OnOk result ((fed : List ℕ) (given : List (List ℕ)) →
            HasGiven fed given self.old → HasGiven (fed ++ piece.now) given self.new) }
    {
        // What was given is let go once it is at least half, so that each byte given moves at most one that stays.
        if self.start > 0 && self.start >= self.bytes.len() - self.start {
            drop_front(&mut self.bytes, self.start);
            self.start = 0;
        }
        self.bytes.extend_from_slice(piece)
    }

    /// Takes the first record off the bytes. Without one, and with a fault, nothing changes.
    pub fn next(&mut self) -> Result<Option<Bytes>, NextFault>
        ensures some { IfOk result (λ found. IfSome found (λ r. BeginsWith self.old r.items self.new)) }
        ensures none { (result ≡ Ok None) ↔ HasNoRecord self.old }
        ensures too_long { (len : ℕ) → (result ≡ Err (NextFault.TooLong len)) ↔ BeginsTooLong self.old len }
        ensures same { IfOk result (λ found. IfNone found (self.new ≡ self.old)) }
        ensures err { OnErr result (self.new ≡ self.old) }

        // The records given and then the rest are the bytes fed.
        ensures account { IfOk result (λ found. IfSome found (λ r. (fed : List ℕ) (given : List (List ℕ)) →
            HasGiven fed given self.old → HasGiven fed (given ++ r.items ∷ []) self.new)) }

        // What is given is what was laid down, whatever is still to come: its first record, or none, and no fault.
        ensures first { IfOk result (λ found. IfSome found (λ r. IsFirstSpan self.old r.items self.new)) }
        ensures all { IfOk result (λ found. IfNone found (IsSpannedByNone self.old)) }
        ensures no_fault { (records : List (List ℕ)) (coming : List ℕ) → IsSpans (self.old ++ coming) records →
            (len : ℕ) → result ≢ Err (NextFault.TooLong len) }
    {
        let rest = &self.bytes[self.start..];
        match front_of(rest) {
            Front::Cut => Ok(None),
            Front::TooLong { len } => Err(NextFault::TooLong { len }),
            Front::Record { len } => {
                let first = copy_of(self.alloc, &rest[4..4 + len])?;
                self.start += 4 + len;
                Ok(Some(first))
            }
        }
    }

    /// The bytes that were fed and not given as records.
    pub fn rest(&self) -> &[u8]
        ensures { result.now ≡ self.now }
    {
        &self.bytes[self.start..]
    }
}

// What bytes begin with: less than a whole record, a length that is no record's, or a record of `len` bytes.
#[derive(Drop)]
pub(crate) enum Front {
    Cut,
    TooLong { len: u32 },
    Record { len: usize },
}

fn front_of(bytes: &[u8]) -> Front
    ensures { IsFront bytes.now result }
{
    if bytes.len() < 4 {
        return Front::Cut;
    }
    let len = front_length(bytes);
    if len as usize > RECORD_MAX {
        return Front::TooLong { len };
    }
    if bytes.len() - 4 < len as usize {
        return Front::Cut;
    }
    Front::Record { len: len as usize }
}

// The length at the front of an encoding.
#[tactic(auto, unfolding(flow_defs::specs::Records::length_bytes))]
pub(crate) fn front_length(bytes: &[u8]) -> u32
    requires { 4 ≤ length bytes.now }
    ensures { length_bytes result ≡ take 4 bytes.now }
{
    u32::from_be_bytes([bytes[0], bytes[1], bytes[2], bytes[3]])
}

fn copy_of(alloc: Global, bytes: &[u8]) -> Result<Bytes, AllocError>
    ensures { IfOk result (λ copy. copy.items ≡ bytes.now) }
{
    let mut copy = Bytes::new(alloc);
    copy.extend(bytes)?;
    Ok(copy)
}

// Takes the first `count` bytes off.
fn drop_front(bytes: &mut Vec<u8>, count: usize)
    requires { count ≤ length bytes.old.items }
    ensures { bytes.new.items ≡ drop count bytes.old.items }
{
    let kept = bytes.len() - count;
    bytes.copy_within(count.., 0);
    bytes.truncate(kept);
}
