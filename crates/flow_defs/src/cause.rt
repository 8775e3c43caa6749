// Why a worker of a job ended.

use crate::task::ChannelId;

/// What a worker met of the connection's other end that a sound other end doesn't do.
#[derive(Clone, Copy, Debug, PartialEq, Eq)]
pub enum PeerFault {
    /// Bytes that are no frame, or a frame in the wrong direction.
    BadFrame,
    /// A sequence number that is not the next one of its channel.
    Sequence,
    /// A barrier whose number is not the next one of its channel.
    Barrier,
    /// A buffer, or a desired buffer size, above the size of a segment.
    Size,
    /// An item behind the end of its channel.
    AfterEnd,
    /// A channel that the connection does not have, one requested twice, or credit or a resumption on
    /// one that was not requested.
    Channel,
    /// Credit that was still too much once the channel's end had been sent.
    Credit,
    /// A resumption that still resumed nothing once the channel's end had been sent.
    Resume,
    /// The end of a channel in the middle of a record, or a length that is no record's.
    Left,
    /// The end of the bytes before a closing frame.
    Cut,
    /// An error response.
    Refused,
}

/// Why a worker ended.
#[derive(Clone, Copy, Debug, PartialEq, Eq)]
pub enum Cause {
    /// It did all of its work.
    Done,
    /// Another worker had met a fault before.
    Stopped,
    /// A read of the source failed. Sources are counted from 0.
    Input {
        source: u32,
    },
    /// The keeper failed.
    Keeper,
    /// Its half of a link failed.
    Link,
    /// A line of the source is longer than a record may be.
    LongLine {
        source: u32,
    },
    /// The source has more bytes than it may have.
    BigSource {
        source: u32,
    },
    /// A number of keys or of runs of an image, or the length of a piece saved in it, is above
    /// 4,294,967,295.
    BigImage,
    /// A data frame came whose number on its channel is above the credit announced there. Both numbers
    /// are modulo 2^64.
    OverCredit {
        channel: ChannelId,
        received: u64,
        announced: u64,
    },
    Peer {
        fault: PeerFault,
    },
    /// There was no memory.
    Memory,
}
