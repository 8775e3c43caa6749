// Scripts and their events.
use flow_defs::{BarrierKind, Bytes, ListOf};

/// The most channels of an exchange.
pub const CHANNELS_MAX: u32 = 16;

/// The fewest bytes of a segment.
pub const SIZE_MIN: u32 = 64;

/// The most bytes of a segment.
pub const SIZE_MAX: u32 = 65_536;

/// The most segments of an exchange.
pub const TOTAL_MAX: u32 = 16_384;

/// The most bytes of a record whose text stands in the script.
pub const TEXT_MAX: usize = 4096;

/// The most bytes of a record that is filled.
pub const FILL_MAX: u32 = 1_048_576;

/// One step of an exchange, at its sender, its receiver or between them. Channels are counted from 1.
///
/// Events are this project's own choice; what they do is Flink's credit-based flow control, with
/// barriers as FLIP-76 has them.
#[derive(Debug, Drop)]
pub enum Event {
    /// A record with this text is put on a channel.
    Emit { c: u32, text: Bytes },
    /// A record of n bytes `a` is put on a channel.
    Fill { c: u32, n: u32 },
    /// Checkpoint k's barrier is put on a channel: an inline one behind all that waits there, a front one
    /// before the data that wait behind the last barrier.
    Barrier { c: u32, k: u64, kind: BarrierKind },
    /// The end is put on a channel.
    Finish { c: u32 },
    /// The sender sends one item.
    Send,
    /// The sender announces a backlog.
    Announce,
    /// The receiver gets the first frame that was sent to it.
    Deliver,
    /// The receiver announces a channel's pending credit.
    Credit { c: u32 },
    /// The receiver lets a channel go on that a barrier has blocked.
    Resume { c: u32 },
    /// The sender gets the first frame that was sent to it.
    Control,
    /// The receiver takes an item of a channel.
    Poll { c: u32 },
    /// The receiver takes an item of a channel, unless it is a barrier.
    Hold { c: u32 },
    /// The receiver begins to save for checkpoint k what comes on a channel before its barrier and was in no
    /// record so far.
    Save { c: u32, k: u64 },
    /// The receiver asks for what it has saved of a channel for checkpoint k.
    Saved { c: u32, k: u64 },
    /// The segments are counted.
    Pool,
}

/// An exchange, and all that is to happen in it.
#[derive(Debug, Drop)]
pub struct Script {
    /// How many channels there are, from 1 to 16.
    pub channels: u32,
    /// The bytes of a segment, from 64 to 65,536.
    pub size: u32,
    /// How many segments there are, from 1 to 16,384.
    pub total: u32,
    /// What happens, in order.
    pub events: ListOf<Event>,
}
