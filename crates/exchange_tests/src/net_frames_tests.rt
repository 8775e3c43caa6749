// Frames as bytes: each check of a decoder, the ends of each range, and the way there and back.
use flow_defs::{ChannelId, ListOf};
use net_frames::ArrivalKind2::{Buffer, End, Front, Inline};
use net_frames::{CREDIT_MAX, Decoded, Frame, FrameFault, Span, decode, encode};
use std::test::Fail;

const CHANNEL: ChannelId = ChannelId {
    edge: 0,
    from: 1,
    to: 0,
};

// The channel in a frame, and one whose fourth number isn't 0.
const C: &str = "00000000000000010000000000000000";

const NO_CHANNEL: &str = "00000000000000010000000000000001";

// What is decoded: a frame with the bytes that it takes and those of its data, or a fault.
type Expected = Result<(Frame, usize, usize), FrameFault>;

const NEED_MORE: Expected = Err(FrameFault::NeedMore);

const BAD_MAGIC: Expected = Err(FrameFault::BadMagic { got: 0xBADC_0FFF });

const CLOSE: Expected = Ok((Frame::Close, 9, 0));

macro_rules! bad_length {
    ($len:expr) => {
        Err(FrameFault::BadLength { len: $len })
    };
}

macro_rules! bad_id {
    ($id:expr) => {
        Err(FrameFault::BadId { id: $id })
    };
}

macro_rules! bad_body {
    ($id:expr) => {
        Err(FrameFault::BadBody { id: $id })
    };
}

macro_rules! found {
    ($used:expr, $kind:ident $(, $field:ident: $value:expr)*) => {
        Ok((Frame::$kind { channel: CHANNEL, $($field: $value),* }, $used, 0))
    };
}

macro_rules! buffer {
    ($used:expr, $len:expr, $sequence:expr, $backlog:expr, $what:expr) => {
        Ok((Frame::BufferResponse { channel: CHANNEL, sequence: $sequence, backlog: $backlog, what: $what }, $used, $len))
    };
}

// The length, the magic number and the id, the channel and what follows, and what is decoded.
static ROWS: [(&str, &str, &str, Expected); 91] = [
    // Each check before a body is read.
    ("", "", "", NEED_MORE),
    ("000000", "", "", NEED_MORE),
    ("00000008", "", "", bad_length!(8)),
    ("00010028", "", "", bad_length!(65_576)),
    ("ffffffff", "", "", bad_length!(4_294_967_295)),
    ("00000009", "", "", NEED_MORE),
    ("00010027badc0f", "", "", NEED_MORE),
    ("00000009badc0fff03", "", "", BAD_MAGIC),
    ("0000001dbadc0fff06", C, "00000001", BAD_MAGIC),
    ("00000009badc0ffe", "", "", NEED_MORE),
    ("00000009badc0ffe03", "", "", bad_id!(3)),
    ("00000009badc0ffe04", "", "", bad_id!(4)),
    ("00000009badc0ffe08", "", "", bad_id!(8)),
    ("00000009badc0ffe0b", "", "", bad_id!(11)),
    ("00000009badc0ffeff", "", "", bad_id!(255)),
    ("00000026badc0ffe00", "", "", bad_body!(0)),
    ("00000019badc0ffe01", "", "", bad_body!(1)),
    ("0000001bbadc0ffe01", "", "", bad_body!(1)),
    ("0000001cbadc0ffe02", "", "", bad_body!(2)),
    ("0000001ebadc0ffe02", "", "", bad_body!(2)),
    ("0000000abadc0ffe05", "", "", bad_body!(5)),
    ("0000001cbadc0ffe06", "", "", bad_body!(6)),
    ("0000001ebadc0ffe06", "", "", bad_body!(6)),
    ("00000018badc0ffe07", "", "", bad_body!(7)),
    ("0000001abadc0ffe07", "", "", bad_body!(7)),
    ("0000001cbadc0ffe09", "", "", bad_body!(9)),
    ("0000001ebadc0ffe09", "", "", bad_body!(9)),
    ("0000001cbadc0ffe0a", "", "", bad_body!(10)),
    ("0000001ebadc0ffe0a", "", "", bad_body!(10)),
    ("00000027badc0ffe00", "", "", NEED_MORE),
    ("00010027badc0ffe00", "", "", NEED_MORE),
    ("0000001abadc0ffe01", "", "", NEED_MORE),
    ("0000001dbadc0ffe02", "", "", NEED_MORE),
    ("0000001dbadc0ffe06", "", "", NEED_MORE),
    ("00000019badc0ffe07", "", "", NEED_MORE),
    ("0000001dbadc0ffe09", "", "", NEED_MORE),
    ("0000001dbadc0ffe0a", "", "", NEED_MORE),
    // The fourth number of the channel.
    (
        "00000027badc0ffe00",
        NO_CHANNEL,
        "0000000000000000030000000000",
        bad_body!(0),
    ),
    ("0000001abadc0ffe01", NO_CHANNEL, "01", bad_body!(1)),
    ("0000001dbadc0ffe02", NO_CHANNEL, "00000000", bad_body!(2)),
    ("0000001dbadc0ffe06", NO_CHANNEL, "00000001", bad_body!(6)),
    ("00000019badc0ffe07", NO_CHANNEL, "", bad_body!(7)),
    ("0000001dbadc0ffe09", NO_CHANNEL, "00000001", bad_body!(9)),
    ("0000001dbadc0ffe0a", NO_CHANNEL, "00000040", bad_body!(10)),
    // Buffer responses: backlog, kind, compression, length of the content, and barrier.
    (
        "0000002cbadc0ffe00",
        C,
        "00000000000000000000000000050000000161",
        buffer!(44, 5, 0, 0, Buffer),
    ),
    (
        "0000002cbadc0ffe00",
        C,
        "00000000000000000001000000050000000161",
        bad_body!(0),
    ),
    (
        "00000028badc0ffe00",
        C,
        "ffffffff7fffffff00000000000161",
        buffer!(40, 1, 4294967295, CREDIT_MAX, Buffer),
    ),
    (
        "00000028badc0ffe00",
        C,
        "000000008000000000000000000161",
        bad_body!(0),
    ),
    (
        "00000028badc0ffe00",
        C,
        "00000000ffffffff03000000000161",
        bad_body!(0),
    ),
    (
        "00000027badc0ffe00",
        C,
        "0000000000000000000000000000",
        bad_body!(0),
    ),
    (
        "00000028badc0ffe00",
        C,
        "000000000000000000000000000061",
        bad_body!(0),
    ),
    (
        "00000028badc0ffe00",
        C,
        "000000000000000000000000000261",
        bad_body!(0),
    ),
    (
        "00000028badc0ffe00",
        C,
        "000000000000000000ff0000000161",
        bad_body!(0),
    ),
    (
        "0000002fbadc0ffe00",
        C,
        "00000007000000030100000000080000000000000001",
        buffer!(47, 0, 7, 3, Inline { k: 1 }),
    ),
    (
        "0000002fbadc0ffe00",
        C,
        "0000000700000003010000000008ffffffffffffffff",
        buffer!(47, 0, 7, 3, Inline { k: u64::MAX }),
    ),
    (
        "0000002fbadc0ffe00",
        C,
        "00000007000000030100000000080000000000000000",
        bad_body!(0),
    ),
    (
        "0000002ebadc0ffe00",
        C,
        "000000070000000301000000000700000000000001",
        bad_body!(0),
    ),
    (
        "00000030badc0ffe00",
        C,
        "0000000700000003010000000009000000000000000100",
        bad_body!(0),
    ),
    (
        "0000002fbadc0ffe00",
        C,
        "00000007000000030101000000080000000000000001",
        bad_body!(0),
    ),
    (
        "0000002fbadc0ffe00",
        C,
        "00000007000000030200000000080000000000000001",
        buffer!(47, 0, 7, 3, Front { k: 1 }),
    ),
    (
        "0000002fbadc0ffe00",
        C,
        "0000000700000003020000000008ffffffffffffffff",
        buffer!(47, 0, 7, 3, Front { k: u64::MAX }),
    ),
    (
        "0000002fbadc0ffe00",
        C,
        "00000007000000030200000000080000000000000000",
        bad_body!(0),
    ),
    (
        "00000027badc0ffe00",
        C,
        "0000000700000003020000000000",
        bad_body!(0),
    ),
    (
        "00000027badc0ffe00",
        C,
        "0000000100000000030000000000",
        buffer!(39, 0, 1, 0, End),
    ),
    (
        "00000028badc0ffe00",
        C,
        "000000010000000003000000000100",
        bad_body!(0),
    ),
    (
        "00000027badc0ffe00",
        C,
        "0000000100000000040000000000",
        bad_body!(0),
    ),
    (
        "00000028badc0ffe00",
        C,
        "0000000100000000ff000000000161",
        bad_body!(0),
    ),
    // The other kinds.
    ("0000001abadc0ffe01", C, "00", bad_body!(1)),
    (
        "0000001abadc0ffe01",
        C,
        "01",
        found!(26, ErrorResponse, code: 1),
    ),
    (
        "0000001abadc0ffe01",
        C,
        "04",
        found!(26, ErrorResponse, code: 4),
    ),
    ("0000001abadc0ffe01", C, "05", bad_body!(1)),
    (
        "0000001dbadc0ffe02",
        C,
        "00000000",
        found!(29, PartitionRequest, credit: 0),
    ),
    (
        "0000001dbadc0ffe02",
        C,
        "7fffffff",
        found!(29, PartitionRequest, credit: CREDIT_MAX),
    ),
    ("0000001dbadc0ffe02", C, "80000000", bad_body!(2)),
    ("00000009badc0ffe05", "", "", CLOSE),
    ("0000001dbadc0ffe06", C, "00000000", bad_body!(6)),
    (
        "0000001dbadc0ffe06",
        C,
        "00000001",
        found!(29, AddCredit, credit: 1),
    ),
    (
        "0000001dbadc0ffe06",
        C,
        "7fffffff",
        found!(29, AddCredit, credit: CREDIT_MAX),
    ),
    ("0000001dbadc0ffe06", C, "80000000", bad_body!(6)),
    ("00000019badc0ffe07", C, "", found!(25, ResumeConsumption)),
    ("0000001dbadc0ffe09", C, "00000000", bad_body!(9)),
    (
        "0000001dbadc0ffe09",
        C,
        "00000001",
        found!(29, BacklogAnnouncement, backlog: 1),
    ),
    (
        "0000001dbadc0ffe09",
        C,
        "7fffffff",
        found!(29, BacklogAnnouncement, backlog: CREDIT_MAX),
    ),
    ("0000001dbadc0ffe09", C, "80000000", bad_body!(9)),
    ("0000001dbadc0ffe0a", C, "0000003f", bad_body!(10)),
    (
        "0000001dbadc0ffe0a",
        C,
        "00000040",
        found!(29, NewBufferSize, size: 64),
    ),
    (
        "0000001dbadc0ffe0a",
        C,
        "00010000",
        found!(29, NewBufferSize, size: 65536),
    ),
    ("0000001dbadc0ffe0a", C, "00010001", bad_body!(10)),
    // A frame behind another.
    (
        "00000009badc0ffe05",
        "",
        "00000019badc0ffe0700000000000000000000000000000000",
        CLOSE,
    ),
    (
        "00000019badc0ffe07",
        C,
        "00000009badc0ffe05",
        found!(25, ResumeConsumption),
    ),
    (
        "00000028badc0ffe00",
        C,
        "00000000000000000000000000016161",
        buffer!(40, 1, 0, 0, Buffer),
    ),
];

fn decoded(expected: Expected) -> Result<Decoded, FrameFault> {
    let (frame, used, len) = expected?;
    Ok(Decoded {
        frame,
        content: Span {
            from: used.saturating_sub(len),
            len,
        },
        used,
    })
}

#[test]
fn each_check_and_each_end_of_a_range(rt: HostRuntime) -> Result<(), Fail> {
    for (head, channel, rest, expected) in &ROWS {
        let mut bytes = hex::decode(rt.alloc(), *head)?;
        bytes.extend_from_slice(&hex::decode(rt.alloc(), *channel)?)?;
        bytes.extend_from_slice(&hex::decode(rt.alloc(), *rest)?)?;
        assert_eq!(rt;
            decode(&bytes),
            decoded(*expected),
            "{head} {channel} {rest}"
        );
    }
    Ok(())
}

#[test]
fn a_frame_is_decoded_once_it_is_whole(rt: HostRuntime) -> Result<(), Fail> {
    let bytes = hex::decode(
        rt.alloc(),
        "0000001dbadc0ffe060000000000000001000000000000000000000001",
    )?;
    let credit = Frame::AddCredit {
        channel: CHANNEL,
        credit: 1,
    };
    assert_eq!(rt; decode(&bytes), decoded(Ok((credit, 29, 0))));
    assert_eq!(rt; bytes.len(), 29);
    for n in 0..29 {
        assert_eq!(rt; decode(&bytes[..n]), Err(FrameFault::NeedMore));
    }
    Ok(())
}

#[test]
fn frames_are_encoded_and_decoded_again(rt: HostRuntime) -> Result<(), Fail> {
    for (head, channel, rest, expected) in &ROWS {
        let mut bytes = hex::decode(rt.alloc(), *head)?;
        bytes.extend_from_slice(&hex::decode(rt.alloc(), *channel)?)?;
        bytes.extend_from_slice(&hex::decode(rt.alloc(), *rest)?)?;
        if let Ok(
            Decoded {
                frame,
                content: Span { from, len },
                used,
            },
        ) = decode(&bytes)
        {
            let mut out = ListOf::new(rt.alloc());
            encode(&frame, &bytes[from..from + len], &mut out)?;
            assert_eq!(rt; out.as_slice(), &bytes[..used], "{head} {channel} {rest}");
            assert_eq!(rt; decode(out.as_slice()), decoded(*expected));
        }
    }
    Ok(())
}

#[test]
fn data_end_at_their_limit(rt: HostRuntime) -> Result<(), Fail> {
    let data = vec![in rt.alloc(); b'a'; 65_536]?;
    let frame = Frame::BufferResponse {
        channel: CHANNEL,
        sequence: 1,
        backlog: 2,
        what: Buffer,
    };
    let mut out = ListOf::new(rt.alloc());
    encode(&frame, &data, &mut out)?;
    encode(&Frame::Close, &[], &mut out)?;
    assert_eq!(rt; out.as_slice().len(), 65_584);
    assert_eq!(rt;
        decode(out.as_slice()),
        decoded(Ok((frame, 65_575, 65_536)))
    );
    assert_eq!(rt;
        decode(&out.as_slice()[65_575..]),
        decoded(Ok((Frame::Close, 9, 0)))
    );
    Ok(())
}
