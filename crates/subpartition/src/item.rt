// What stands in a subpartition.
ghost use Rattle.std.specs.Prelude.{◌<◌, ◌≤◌, length};

use flow_defs::BarrierKind;
use segment_pool::Segment;

/// A segment whose first bytes are data. An empty buffer is never sent, so there is at least one.
#[derive(Drop)]
pub struct Filled {
    pub segment: Segment,
    /// How many bytes of the segment are data.
    pub len: u32,
    pub ghost not_empty: { 0 < len },
    pub ghost fits: { len ≤ length segment },
}

impl Filled {
    ghost use Rattle.std.specs.Prelude.{◌≡◌};
    ghost use Rattle.subpartition.specs.Queues.{bytes_of};

    /// The data.
    pub fn bytes(&self) -> &[u8]
        ensures bytes { result.now ≡ bytes_of self.now }
    {
        &self.segment.bytes()[..self.len as usize]
    }
}

/// What stands in a subpartition: a data buffer, or one of the events that travel in line with them.
#[derive(Drop)]
pub enum Item {
    Buffer(Filled),
    /// Checkpoint barrier k, which counts from 1.
    Barrier { k: u64, kind: BarrierKind },
    /// Nothing follows.
    End,
}

impl Item {
    ghost use Rattle.std.specs.Prelude.{◌≡◌, [], ◌∷◌};
    ghost use Rattle.subpartition.specs.Queues.{data_in, is_mark};

    /// Whether it is a barrier.
    pub(crate) fn is_barrier(&self) -> bool
        ensures { result ≡ is_mark self.now }
    {
        match self {
            Item::Barrier { .. } => true,
            Item::Buffer(_) | Item::End => false,
        }
    }

    /// The data of a buffer, and none of an event.
    pub(crate) fn data(&self) -> &[u8]
        ensures { result.now ≡ data_in (self.now ∷ []) }
    {
        match self {
            Item::Buffer(filled) => filled.bytes(),
            Item::Barrier { .. } | Item::End => &[],
        }
    }
}
