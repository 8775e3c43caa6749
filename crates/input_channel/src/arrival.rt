// What a buffer response brings to a channel.

use flow_defs::BarrierKind;

/// What arrives: the content of a buffer, whose bytes stand beside it, a barrier of FLIP-76, or the
/// end of the partition.
#[derive(Clone, Copy, Debug, PartialEq, Eq)]
pub enum ArrivalKind {
    Buffer,
    /// Barriers count from 1.
    Barrier { k: u64, kind: BarrierKind },
    End,
}

/// An arrival, as its buffer response tells it.
#[derive(Clone, Copy, Debug, PartialEq, Eq)]
pub struct Arrival {
    /// Counts what the sender sent on this channel, from 0, modulo 2^32.
    pub sequence: u32,
    /// The data buffers that are left at the sender.
    pub backlog: u32,
    pub what: ArrivalKind,
}
