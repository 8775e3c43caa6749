// Finds the frame that bytes begin with. Where a number lies: the length at 0, the magic number at 4,
// the id at 8, the channel from 9 to 24, what follows it from 25 on, data from 39 on.
ghost use Rattle.std.specs.Prelude.{◌≡◌, ◌≢◌, ◌+◌, ◌-◌, ◌<◌, ◌≤◌, ◌++◌, List, ℕ, Some, IsTrue, length, take, drop, IfOk, IfErr};
ghost use Rattle.std.specs.Result.{IsOkAnd};
ghost use Rattle.std.specs.Int.{w8, w32, w64};
ghost use Rattle.net_frames.specs.Kinds.{may_have};
ghost use Rattle.net_frames.specs.Frames.{Begins};
ghost use Rattle.net_frames.specs.Faults.{number_at, tests, first_that_holds, first_fault, IsFound, HasFound, CannotBegin};
ghost use Rattle.net_frames.specs.Reading.{IsHeader, channel_in, ranged, arrival_in, arrival_of, frame_in, barrier_in};
ghost use Rattle.net_frames.specs.Limits.{frame_max};

use crate::kind::Kind;
use crate::{
    ArrivalKind2, CREDIT_MAX, ERROR_MAX, Frame, FrameFault, LEN_MAX, LEN_MIN, MAGIC, SIZE_MAX,
    SIZE_MIN,
};
use flow_defs::ChannelId;

/// A piece of the bytes that were decoded: where it begins, and its length in bytes.
#[derive(Clone, Copy, Debug, PartialEq, Eq)]
pub struct Span {
    pub from: usize,
    pub len: usize,
}

/// A frame that was found.
#[derive(Clone, Copy, Debug, PartialEq, Eq)]
pub struct Decoded {
    pub frame: Frame,
    /// The data of a buffer response. It has length 0 where the frame brings no data.
    pub content: Span,
    /// How many bytes the frame takes, with its content.
    pub used: usize,
}

/// Finds the frame that `input` begins with. Bytes behind it are not looked at.
///
/// It takes no memory and copies no content, and its time does not depend on the content's length.
pub fn decode(input: &[u8]) -> Result<Decoded, FrameFault>
    // What is found stands there.
    ensures found { IfOk result (IsFound input.now) }
    // What stands there is found.
    ensures only { (frame : Frame) (content rest : List ℕ) → Begins input.now frame content rest
        → IsOkAnd result (HasFound input.now frame content rest) }
    // Else it is the fault of the first test that holds.
    ensures fault { IfErr result (λ e. e ≡ first_fault input.now) }
    // Only `NeedMore` is mended by more bytes, and it doesn't come of as many as a frame may have.
    ensures stays { IfErr result (λ e. e ≢ FrameFault.NeedMore → CannotBegin input.now) }
    ensures more { IfErr result (λ e. e ≡ FrameFault.NeedMore → length input.now < frame_max) }
{
    let (kind, used) = header(input)?;
    let (whole, _) = input.split_at(used);
    match frame_in(kind, whole) {
        Some(frame) => {
            let from = frame.head_len();
            let content = Span {
                from,
                len: used - from,
            };
            Ok(Decoded {
                frame,
                content,
                used,
            })
        }
        None => Err(FrameFault::BadBody { id: kind.id() }),
    }
}

// The kind and the length of the frame that `input` begins with, where it is there as a whole.
fn header(input: &[u8]) -> Result<(Kind, usize), FrameFault>
    ensures ok { IfOk result (λ h. IsHeader input.now h.0 h.1) }
    ensures err { IfErr result (λ e. first_that_holds (tests input.now) ≡ Some e) }
{
    if input.len() < 4 {
        return Err(FrameFault::NeedMore);
    }
    let len = u32_at(input, 0);
    if len < LEN_MIN || len > LEN_MAX {
        return Err(FrameFault::BadLength { len });
    }
    if input.len() < 8 {
        return Err(FrameFault::NeedMore);
    }
    let got = u32_at(input, 4);
    if got != MAGIC {
        return Err(FrameFault::BadMagic { got });
    }
    if input.len() < 9 {
        return Err(FrameFault::NeedMore);
    }
    let id = u8_at(input, 8);
    let Some(kind) = Kind::with_id(id) else {
        return Err(FrameFault::BadId { id });
    };
    if !kind.may_have(len) {
        return Err(FrameFault::BadBody { id });
    }
    let used = len as usize;
    if input.len() < used {
        return Err(FrameFault::NeedMore);
    }
    Ok((kind, used))
}

// The frame of this kind that takes the whole of these bytes.
#[tactic(auto, unfolding(crate::specs::Reading::frame_in))]
fn frame_in(kind: Kind, whole: &[u8]) -> Option<Frame>
    requires { IsTrue (may_have kind (length whole.now)) }
    ensures { result ≡ frame_in kind whole.now }
{
    Some(match kind {
        Kind::Buffer => Frame::BufferResponse {
            channel: channel_in(whole)?,
            sequence: u32_at(whole, 25),
            backlog: u32_within(whole, 29, 0, CREDIT_MAX)?,
            what: arrival_in(whole)?,
        },
        Kind::Error => Frame::ErrorResponse {
            channel: channel_in(whole)?,
            code: u8_within(whole, 25, 1, ERROR_MAX)?,
        },
        Kind::Request => Frame::PartitionRequest {
            channel: channel_in(whole)?,
            credit: u32_within(whole, 25, 0, CREDIT_MAX)?,
        },
        Kind::Closing => Frame::Close,
        Kind::Credit => Frame::AddCredit {
            channel: channel_in(whole)?,
            credit: u32_within(whole, 25, 1, CREDIT_MAX)?,
        },
        Kind::Resumption => Frame::ResumeConsumption {
            channel: channel_in(whole)?,
        },
        Kind::Backlog => Frame::BacklogAnnouncement {
            channel: channel_in(whole)?,
            backlog: u32_within(whole, 25, 1, CREDIT_MAX)?,
        },
        Kind::Size => Frame::NewBufferSize {
            channel: channel_in(whole)?,
            size: u32_within(whole, 25, SIZE_MIN, SIZE_MAX)?,
        },
    })
}

fn channel_in(whole: &[u8]) -> Option<ChannelId>
    requires { 25 ≤ length whole.now }
    ensures { result ≡ channel_in whole.now }
{
    if u32_at(whole, 21) != 0 {
        return None;
    }
    Some(ChannelId {
        edge: u32_at(whole, 9),
        from: u32_at(whole, 13),
        to: u32_at(whole, 17),
    })
}

// What a buffer response brings that takes the whole of these bytes.
fn arrival_in(whole: &[u8]) -> Option<ArrivalKind2>
    requires { 39 ≤ length whole.now }
    ensures { result ≡ arrival_in whole.now }
{
    let len = whole.len() - 39;
    if u8_at(whole, 34) != 0 || u32_at(whole, 35) as usize != len {
        return None;
    }
    match u8_at(whole, 33) {
        0 if len >= 1 => Some(ArrivalKind2::Buffer),
        1 if len == 8 => Some(ArrivalKind2::Inline {
            k: barrier_in(whole)?,
        }),
        2 if len == 8 => Some(ArrivalKind2::Front {
            k: barrier_in(whole)?,
        }),
        3 if len == 0 => Some(ArrivalKind2::End),
        _ => None,
    }
}

// The number of the barrier that a buffer response brings.
fn barrier_in(whole: &[u8]) -> Option<u64>
    requires { 47 ≤ length whole.now }
    ensures { result ≡ barrier_in whole.now }
{
    let k = u64_at(whole, 39);
    if k >= 1 { Some(k) } else { None }
}

// The number at a place, where it is in this range.

fn u8_within(bytes: &[u8], place: usize, least: u8, most: u8) -> Option<u8>
    requires { place + 1 ≤ length bytes.now }
    ensures { result ≡ ranged w8 place least most bytes.now }
{
    let n = u8_at(bytes, place);
    if least <= n && n <= most {
        Some(n)
    } else {
        None
    }
}

fn u32_within(bytes: &[u8], place: usize, least: u32, most: u32) -> Option<u32>
    requires { place + 4 ≤ length bytes.now }
    ensures { result ≡ ranged w32 place least most bytes.now }
{
    let n = u32_at(bytes, place);
    if least <= n && n <= most {
        Some(n)
    } else {
        None
    }
}

#[tactic(auto, unfolding(crate::specs::Faults::number_at))]
fn u8_at(bytes: &[u8], place: usize) -> u8
    requires { place + 1 ≤ length bytes.now }
    ensures { result ≡ number_at w8 place bytes.now }
{
    bytes[place]
}

#[tactic(auto, unfolding(crate::specs::Faults::number_at))]
fn u32_at(bytes: &[u8], place: usize) -> u32
    requires { place + 4 ≤ length bytes.now }
    ensures { result ≡ number_at w32 place bytes.now }
{
    let b = &bytes[place..place + 4];
    u32::from_be_bytes([b[0], b[1], b[2], b[3]])
}

#[tactic(auto, unfolding(crate::specs::Faults::number_at))]
fn u64_at(bytes: &[u8], place: usize) -> u64
    requires { place + 8 ≤ length bytes.now }
    ensures { result ≡ number_at w64 place bytes.now }
{
    let b = &bytes[place..place + 8];
    u64::from_be_bytes([b[0], b[1], b[2], b[3], b[4], b[5], b[6], b[7]])
}
