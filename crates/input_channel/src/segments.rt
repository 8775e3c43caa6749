// The segments of a channel that was ended.
// A channel comes apart into them, since a pool is closed only with all of its segments.
ghost use Rattle.std.specs.Prelude.{◌≡◌, ◌-◌, ◌<◌, ◌↔◌, length, IsSome, IfSome};

use crate::held::HeldBuf;
use circular_buffer::HeapCircularBuffer;
use segment_pool::Segment;
use std::marker::Model;

/// The segments that a channel had when it was ended, to be given back to their pool. Contracts see how
/// many are left, and their length.
#[derive(Drop)]
pub struct Segments {
    pub(crate) exclusive: HeapCircularBuffer<Segment>,
    pub(crate) floating: HeapCircularBuffer<Segment>,
    pub(crate) buffers: HeapCircularBuffer<HeldBuf>,
    pub(crate) size: u32,
}

impl Model for Segments {
    ghost use Rattle.std.specs.Prelude.{◌+◌, length};
    ghost use Rattle.input_channel.specs.States.{SegmentsLeft};
    ghost use Rattle.input_channel.specs.Kept.{HaveLength, AreOfLength};

    ghost Value = { SegmentsLeft };

    ghost view = { λ s. record { left = length s.exclusive.items + length s.floating.items + length s.buffers.items; size = s.size } };

    ghost invariant = { λ s. HaveLength s.size s.exclusive.items × HaveLength s.size s.floating.items × AreOfLength s.size s.buffers.items };
}

impl Segments {
    /// Takes one of them out.
    pub fn take(&mut self) -> Option<Segment>
        ensures some { IsSome result ↔ (0 < self.old.left) }
        ensures left { self.new ≡ record { left = self.old.left - 1; size = self.old.size } }
        ensures size { IfSome result (λ segment. length segment ≡ self.old.size) }
    {
        if let Some(segment) = self.exclusive.pop_front() {
            return Some(segment);
        }
        if let Some(segment) = self.floating.pop_front() {
            return Some(segment);
        }
        match self.buffers.pop_front() {
            Some(buf) => {
                let HeldBuf { segment, .. } = buf;
                Some(segment)
            }
            None => None,
        }
    }
}
