// Frames as values.
ghost use Rattle.std.specs.Prelude.{◌≡◌};
ghost use Rattle.net_frames.specs.Frames.{frame_kind, head_len};

use crate::kind::Kind;
use flow_defs::ChannelId;

/// The number that each frame has behind its length.
pub const MAGIC: u32 = 0xBADC_0FFE;

/// The fewest bytes of a frame.
pub const LEN_MIN: u32 = 9;

/// The most bytes of a frame: a buffer response with the largest content.
pub const LEN_MAX: u32 = 65_575;

/// The largest credit, and the largest backlog.
pub const CREDIT_MAX: u32 = 2_147_483_647;

/// The largest code of an error.
pub const ERROR_MAX: u8 = 4;

/// The smallest size of a buffer that may be announced, in bytes.
pub const SIZE_MIN: u32 = 64;

/// The largest size of a buffer that may be announced, in bytes.
pub const SIZE_MAX: u32 = 65_536;

/// What a buffer response brings.
#[derive(Clone, Copy, Debug, PartialEq, Eq)]
pub enum ArrivalKind2 {
    /// Data, which are the content of the frame.
    Buffer,
    /// Barrier k, in line with the data. k is at least 1.
    Inline { k: u64 },
    /// Barrier k, in front of the data. k is at least 1.
    Front { k: u64 },
    /// The end of the channel.
    End,
}

/// A message of one end of a connection to the other, without its content.
///
/// The sender's end writes buffer responses, error responses and backlog announcements, the
/// receiver's end the others, and both a closing frame last.
#[derive(Clone, Copy, Debug, PartialEq, Eq)]
pub enum Frame {
    /// What the sender took from a subpartition.
    BufferResponse {
        channel: ChannelId,
        /// How many buffer responses the channel had before, modulo 2^32.
        sequence: u32,
        /// How many buffers of data wait behind this one, at most `CREDIT_MAX`.
        backlog: u32,
        what: ArrivalKind2,
    },
    /// Why the sender won't serve a channel: 1 it is unknown, 2 it was requested twice, 3 its credit
    /// is over the limit, 4 it was not blocked.
    ErrorResponse {
        channel: ChannelId,
        code: u8,
    },
    /// Asks for a subpartition, with the credit to begin with, at most `CREDIT_MAX`.
    PartitionRequest {
        channel: ChannelId,
        credit: u32,
    },
    /// The last frame of an end.
    Close,
    /// More credit, from 1 to `CREDIT_MAX` buffers.
    AddCredit {
        channel: ChannelId,
        credit: u32,
    },
    /// A channel that stands blocked behind a barrier may go on.
    ResumeConsumption {
        channel: ChannelId,
    },
    /// How many buffers of data wait for credit, from 1 to `CREDIT_MAX`.
    BacklogAnnouncement {
        channel: ChannelId,
        backlog: u32,
    },
    /// How large buffers are to be from now on, from `SIZE_MIN` to `SIZE_MAX` bytes.
    NewBufferSize {
        channel: ChannelId,
        size: u32,
    },
}

impl Frame {
    pub(crate) fn kind(&self) -> Kind
        ensures { result ≡ frame_kind self.now }
    {
        match self {
            Frame::BufferResponse { .. } => Kind::Buffer,
            Frame::ErrorResponse { .. } => Kind::Error,
            Frame::PartitionRequest { .. } => Kind::Request,
            Frame::Close => Kind::Closing,
            Frame::AddCredit { .. } => Kind::Credit,
            Frame::ResumeConsumption { .. } => Kind::Resumption,
            Frame::BacklogAnnouncement { .. } => Kind::Backlog,
            Frame::NewBufferSize { .. } => Kind::Size,
        }
    }

    // The length of the frame without its content.
    pub(crate) fn head_len(&self) -> usize
        ensures { result ≡ head_len self.now }
    {
        match *self {
            Frame::BufferResponse { what, .. } => match what {
                ArrivalKind2::Buffer => 39,
                ArrivalKind2::Inline { .. } => 47,
                ArrivalKind2::Front { .. } => 47,
                ArrivalKind2::End => 39,
            },
            Frame::ErrorResponse { .. } => 26,
            Frame::PartitionRequest { .. } => 29,
            Frame::Close => 9,
            Frame::AddCredit { .. } => 29,
            Frame::ResumeConsumption { .. } => 25,
            Frame::BacklogAnnouncement { .. } => 29,
            Frame::NewBufferSize { .. } => 29,
        }
    }
}
