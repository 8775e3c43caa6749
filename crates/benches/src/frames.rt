// Frames of 32 KiB of data, laid down or read.
use flow_defs::{ChannelId, ListOf};
use net_frames::{ArrivalKind2, Decoded, Frame, Span, decode, encode};
use std::alloc::{AllocError, Global};

const DATA: usize = 32_768;

// Three frames with their data are small enough to be taken from memory that was given back.
const ROUND_ROOM: usize = 100_000;

const FRAME: Frame = Frame::BufferResponse {
    channel: ChannelId {
        edge: 0,
        from: 1,
        to: 0,
    },
    sequence: 7,
    backlog: 3,
    what: ArrivalKind2::Buffer,
};

// So many rounds of three frames: `encode` lays them down, `decode` reads them and copies their data out.
pub fn work(alloc: Global, what: &str, rounds: u64) -> Option<u64> {
    match what {
        "encode" => encode_all(alloc, rounds).ok(),
        "decode" => decode_all(alloc, rounds).ok(),
        _ => None,
    }
}

// Three frames, end to end.
fn three_frames(alloc: Global, data: &[u8]) -> Result<ListOf<u8>, AllocError> {
    let mut out = ListOf::new(alloc);
    if data.len() == DATA {
        out.reserve(ROUND_ROOM)?;
        for _ in 0..3 {
            encode(&FRAME, data, &mut out)?;
        }
    }
    Ok(out)
}

// The last bytes of all rounds, added up so that no round can be left out.
fn encode_all(alloc: Global, rounds: u64) -> Result<u64, AllocError> {
    let data = vec![in alloc; b'a'; DATA]?;
    let mut sum = 0u64;
    for _ in 0..rounds {
        let out = three_frames(alloc, &data)?;
        if let Some(last) = out.as_slice().last() {
            sum = sum.wrapping_add(*last as u64);
        }
    }
    Ok(sum)
}

fn decode_all(alloc: Global, rounds: u64) -> Result<u64, AllocError> {
    let data = vec![in alloc; b'a'; DATA]?;
    let frames = three_frames(alloc, &data)?;
    let mut segment = vec![in alloc; 0u8; DATA]?;
    let mut sum = 0u64;
    for _ in 0..rounds {
        let mut rest = frames.as_slice();
        for _ in 0..3 {
            if let Ok(
                Decoded {
                    content: Span { from, len },
                    used,
                    ..
                },
            ) = decode(rest)
                && len == segment.len()
            {
                segment.copy_from_slice(&rest[from..from + len]);
                rest = &rest[used..];
            }
        }
        if let Some(last) = segment.last() {
            sum = sum.wrapping_add(*last as u64);
        }
    }
    Ok(sum)
}
