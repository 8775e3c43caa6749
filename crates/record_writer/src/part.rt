// A buffer that is being filled.
ghost use Rattle.std.specs.Prelude.{◌≡◌, ℕ, ◌+◌, ◌≤◌, ◌++◌, [], length, take, drop, All, IfOk};
ghost use Rattle.flow_defs.specs.Records.{encoded, IsShort};
ghost use Rattle.record_writer.specs.Writers.{bytes_in};
ghost use Rattle.record_writer.specs.Segments.{all_held, holds};
ghost use Rattle.record_writer.specs.Channels.{IsPart};

use flow_defs::ListOf;
use record_spans::write_span;
use segment_pool::Segment;
use std::alloc::{AllocError, Global};

/// A buffer that is being filled: the first `len` bytes of its segment, if it has one.
#[derive(Drop)]
pub(crate) struct Part {
    pub(crate) segment: Option<Segment>,
    pub(crate) len: u32,
}

impl Part {
    /// One that has no segment yet.
    pub(crate) fn new() -> Self
        ensures empty { (bytes_in result ≡ []) × ((size : ℕ) → IsPart size result) }
        ensures held { holds result ≡ 0 }
    {
        Part {
            segment: None,
            len: 0,
        }
    }
}

/// So many parts, none of which has a segment yet.
pub(crate) fn new_parts(alloc: Global, many: usize) -> Result<ListOf<Part>, AllocError>
    ensures many { IfOk result (λ parts. length parts.items ≡ many) }
    ensures empty { IfOk result (λ parts. All (λ part. bytes_in part ≡ []) parts.items) }
    ensures held { IfOk result (λ parts. all_held parts.items ≡ 0) }
    ensures parts { (size : ℕ) → IfOk result (λ parts. All (IsPart size) parts.items) }
{
    let mut parts = ListOf::new(alloc);
    parts.reserve(many)?;
    for _number in 0..many {
        parts.push(Part::new())?;
    }
    Ok(parts)
}

/// Copies the encoding of a record, from its byte `done` on, behind the bytes of a segment that are filled,
/// as much as fits, and answers how many bytes that are.
pub(crate) fn write_behind(segment: &mut Segment, len: u32, line: &[u8], done: usize) -> u32
    requires short { IsShort line.now }
    requires within { done ≤ length line.now + 4 }
    requires len { len ≤ length segment.old }
    ensures copied { take (len + result) segment.new ≡ take len segment.old ++ take result (drop done (encoded line.now)) }
    ensures length { length segment.new ≡ length segment.old }
    ensures fits { len + result ≤ length segment.old }
    ensures count { done + result ≤ length line.now + 4 }
{
    write_span(line, done, &mut segment.bytes_mut()[len as usize..]) as u32
}
