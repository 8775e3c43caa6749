// A segment of network memory.

use std::alloc::{AllocError, Global};
use std::marker::Model;

/// The smallest segment, in bytes.
pub const SEGMENT_MIN: usize = 64;

/// The largest segment, in bytes.
pub const SEGMENT_MAX: usize = 65_536;

/// A piece of network memory, of 64 to 65,536 bytes, and one unit of its pool. It is moved, never
/// copied; one that is dropped stays lent. Contracts see its bytes.
#[derive(Drop)]
pub struct Segment {
    bytes: Vec<u8>,
}

impl Model for Segment {
    ghost use Rattle.std.specs.Prelude.{ℕ, ◌≤◌, List, length};
    ghost use Rattle.std.specs.Coded.{coded_ℕ, coded_list};
    ghost use Rattle.flow_defs.specs.Limits.{segment_min, segment_max};

    ghost Value = { List ℕ };

    ghost coded = { coded_list coded_ℕ };

    ghost view = { λ s. s.bytes.items };

    ghost invariant = { λ s. (segment_min ≤ length s.bytes.items) × (length s.bytes.items ≤ segment_max) };
}

impl Segment {
    ghost use Rattle.std.specs.Prelude.{◌≡◌, ◌≤◌, length, IfOk};
    ghost use Rattle.std.specs.Borrow.{sem};
    ghost use Rattle.segment_pool.specs.Lends.{lends_segment};
    ghost use Rattle.flow_defs.specs.Limits.{segment_min, segment_max};

    // A segment of so many zeros.
    pub(crate) fn of(alloc: Global, size: u32) -> Result<Self, AllocError>
        requires { (segment_min ≤ size) × (size ≤ segment_max) }
        ensures { IfOk result (λ segment. length segment ≡ size) }
    {
        Ok(Segment {
            bytes: vec![in alloc; 0; size as usize]?,
        })
    }

    /// Its bytes, which are `size` of its pool.
    pub fn bytes(&self) -> &[u8]
        ensures bytes { result.now ≡ self.now }
        ensures size { (segment_min ≤ length result.now) × (length result.now ≤ segment_max) }
    {
        &self.bytes
    }

    /// Its bytes, for writing.
    pub fn bytes_mut(&mut self) -> &mut [u8]
        ensures* writes_back { sem 𝓛 (lends_segment self.entry result) }
        ensures value { result.now ≡ self.old }
        ensures size { (segment_min ≤ length result.now) × (length result.now ≤ segment_max) }
    {
        self.bytes.as_mut_slice()
    }
}
