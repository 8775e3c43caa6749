// Texts that are scripts beside texts that have a bad line, and replies as they are printed.
use credit_reader::SentKind;
use flow_defs::{BarrierKind, Bytes, ListOf};
use script_text::{Event, Reply, read_script, write_reply};
use std::alloc::{AllocError, Global};
use std::test::Fail;

// Texts, each as its front, a byte that is repeated so often, and its back; and what is told of it,
// nothing where it is a script's.
const TEXTS: &[(&[u8], u8, usize, &[u8], &str)] = &[
    // Whole scripts.
    (
        b"open 1 64 40\npool\nemit 1 a\nemit 1 b\nemit 1 c\nsend\nsend\nsend\ndeliver\npool\ncredit 1\ncontrol\nsend\nsend\ndeliver\ndeliver\npoll 1\npoll 1\npoll 1\npool\ncredit 1\n",
        0,
        0,
        b"",
        "",
    ),
    (
        b"open 2 64 40\nemit 1 a\nemit 1 b\nemit 1 c\nemit 2 d\nsend\nsend\nsend\nsend\nemit 2 e\nsend\ndeliver\ndeliver\ndeliver\ndeliver\npoll 2\npoll 2",
        0,
        0,
        b"",
        "",
    ),
    (b"open 1 64 40", 0, 0, b"", ""),
    // The first line.
    (b"", 0, 0, b"", "script line 1: bad line"),
    (b"\n", 0, 0, b"", "script line 1: bad line"),
    (b"pool\n", 0, 0, b"", "script line 1: bad line"),
    (b"open 1 64\n", 0, 0, b"", "script line 1: bad line"),
    (b"open 1 64 40 1\n", 0, 0, b"", "script line 1: bad line"),
    (b"open 1 64 40 \n", 0, 0, b"", "script line 1: bad line"),
    (b"open  1 64 40\n", 0, 0, b"", "script line 1: bad line"),
    (b"Open 1 64 40\n", 0, 0, b"", "script line 1: bad line"),
    (b"open 16 65536 16384\n", 0, 0, b"", ""),
    (b"open 0 64 40\n", 0, 0, b"", "script line 1: bad line"),
    (b"open 17 64 40\n", 0, 0, b"", "script line 1: bad line"),
    (b"open 1 63 40\n", 0, 0, b"", "script line 1: bad line"),
    (b"open 1 65537 40\n", 0, 0, b"", "script line 1: bad line"),
    (b"open 1 64 1\n", 0, 0, b"", ""),
    (b"open 1 64 0\n", 0, 0, b"", "script line 1: bad line"),
    (b"open 1 64 16385\n", 0, 0, b"", "script line 1: bad line"),
    // Channels.
    (
        b"open 1 64 4\nemit 2 x\n",
        0,
        0,
        b"",
        "script line 2: bad line",
    ),
    (b"open 2 64 4\nemit 2 x\n", 0, 0, b"", ""),
    (
        b"open 2 64 4\npoll 2\npoll 0\n",
        0,
        0,
        b"",
        "script line 3: bad line",
    ),
    (
        b"open 1 64 4\npoll 01",
        0,
        0,
        b"",
        "script line 2: bad line",
    ),
    (
        b"open 1 64 4\npoll +1",
        0,
        0,
        b"",
        "script line 2: bad line",
    ),
    (
        b"open 1 64 4\npoll -1",
        0,
        0,
        b"",
        "script line 2: bad line",
    ),
    // Texts.
    (b"open 1 64 4\nemit 1 ", 0, 0, b"\n", ""),
    (
        b"open 1 64 4\nemit 1",
        0,
        0,
        b"\n",
        "script line 2: bad line",
    ),
    (b"open 1 64 4\nemit 1 ", b' ', 4096, b"\n", ""),
    (
        b"open 1 64 4\nemit 1 ",
        b'~',
        4097,
        b"\n",
        "script line 2: bad line",
    ),
    (
        b"open 1 64 4\nemit 1 a",
        31,
        1,
        b"\n",
        "script line 2: bad line",
    ),
    (
        b"open 1 64 4\nemit 1 a",
        127,
        1,
        b"\n",
        "script line 2: bad line",
    ),
    // Numbers.
    (b"open 1 64 4\nfill 1 0\nfill 1 1048576", 0, 0, b"", ""),
    (
        b"open 1 64 4\nfill 1 1048577",
        0,
        0,
        b"",
        "script line 2: bad line",
    ),
    (
        b"open 1 64 4\nfill 1 00",
        0,
        0,
        b"",
        "script line 2: bad line",
    ),
    (
        b"open 1 64 4\nfill 1 ",
        0,
        0,
        b"",
        "script line 2: bad line",
    ),
    (
        b"open 1 64 4\nbarrier 1 18446744073709551615 inline",
        0,
        0,
        b"",
        "",
    ),
    (
        b"open 1 64 4\nbarrier 1 18446744073709551616 inline",
        0,
        0,
        b"",
        "script line 2: bad line",
    ),
    (
        b"open 1 64 4\nbarrier 1 0 inline",
        0,
        0,
        b"",
        "script line 2: bad line",
    ),
    (
        b"open 1 64 4\nbarrier 1 1",
        0,
        0,
        b"",
        "script line 2: bad line",
    ),
    (
        b"open 1 64 4\nbarrier 1 18446744073709551615 front",
        0,
        0,
        b"",
        "",
    ),
    (
        b"open 1 64 4\nbarrier 1 0 front",
        0,
        0,
        b"",
        "script line 2: bad line",
    ),
    (
        b"open 1 64 4\nbarrier 1 1 front ",
        0,
        0,
        b"",
        "script line 2: bad line",
    ),
    (
        b"open 1 64 4\nsave 1 18446744073709551615\nsaved 1 18446744073709551615",
        0,
        0,
        b"",
        "",
    ),
    (
        b"open 1 64 4\nsave 1 18446744073709551616",
        0,
        0,
        b"",
        "script line 2: bad line",
    ),
    (
        b"open 1 64 4\nsave 1 0",
        0,
        0,
        b"",
        "script line 2: bad line",
    ),
    (
        b"open 1 64 4\nsaved 1 0",
        0,
        0,
        b"",
        "script line 2: bad line",
    ),
    (
        b"open 1 64 4\nsaved 2 1",
        0,
        0,
        b"",
        "script line 2: bad line",
    ),
    // Lines that are no events.
    (b"open 1 64 4\nsave 1", 0, 0, b"", "script line 2: bad line"),
    (
        b"open 1 64 4\nsaved 1 1 front",
        0,
        0,
        b"",
        "script line 2: bad line",
    ),
    (
        b"open 1 64 4\nsend\n\nsend",
        0,
        0,
        b"",
        "script line 3: bad line",
    ),
    (b"open 1 64 4\nSEND", 0, 0, b"", "script line 2: bad line"),
    (b"open 1 64 4\nsend 1", 0, 0, b"", "script line 2: bad line"),
    (b"open 1 64 4\nsend ", 0, 0, b"", "script line 2: bad line"),
    (b"open 1 64 4\npoll", 0, 0, b"", "script line 2: bad line"),
    (
        b"open 1 64 4\npoll  1",
        0,
        0,
        b"",
        "script line 2: bad line",
    ),
    (
        b"open 1 64 4\npoll 1 1",
        0,
        0,
        b"",
        "script line 2: bad line",
    ),
    (
        b"open 1 64 4\nopen 1 64 4",
        0,
        0,
        b"",
        "script line 2: bad line",
    ),
];

// What is told of a text; nothing where it is a script's.
fn told(
    alloc: Global,
    front: &[u8],
    byte: u8,
    times: usize,
    back: &[u8],
) -> Result<String, AllocError> {
    let mut text = Bytes::of(alloc, front)?;
    for _ in 0..times {
        text.push(byte)?;
    }
    text.extend(back)?;
    match read_script(alloc, text.as_slice()) {
        Ok(_) => Ok(String::new(alloc)),
        Err(fault) => Ok(format!(in alloc; "{fault}")?),
    }
}

#[test]
fn the_first_bad_line_of_a_script_is_told(rt: HostRuntime) -> Result<(), Fail> {
    let alloc = rt.alloc();
    for (front, byte, times, back, fault) in TEXTS {
        let told = told(alloc, front, *byte, *times, back)?;
        assert_eq!(rt; told.as_str(), *fault);
    }
    Ok(())
}

// Each kind of event: its line, and the event by its fields. The texts are those of bytes.
const EVENTS: &[(&str, &str)] = &[
    ("emit 1 a", "Emit { c: 1, text: Bytes { bytes: [97] } }"),
    (
        "emit 3  b",
        "Emit { c: 3, text: Bytes { bytes: [32, 98] } }",
    ),
    ("fill 2 70", "Fill { c: 2, n: 70 }"),
    ("barrier 3 4 inline", "Barrier { c: 3, k: 4, kind: Inline }"),
    ("barrier 3 4 front", "Barrier { c: 3, k: 4, kind: Front }"),
    ("finish 2", "Finish { c: 2 }"),
    ("send", "Send"),
    ("announce", "Announce"),
    ("deliver", "Deliver"),
    ("credit 2", "Credit { c: 2 }"),
    ("resume 2", "Resume { c: 2 }"),
    ("control", "Control"),
    ("poll 2", "Poll { c: 2 }"),
    ("hold 3", "Hold { c: 3 }"),
    ("save 2 1", "Save { c: 2, k: 1 }"),
    ("saved 2 7", "Saved { c: 2, k: 7 }"),
    ("pool", "Pool"),
];

// The event of a line, by its fields.
fn event_read(alloc: Global, line: &str) -> Result<String, Fail> {
    let mut text = Bytes::of(alloc, b"open 3 128 40\n")?;
    text.extend(line.as_bytes())?;
    let Ok(script) = read_script(alloc, text.as_slice()) else {
        return Err(Fail::from("the text is no script's"));
    };
    if (script.channels, script.size, script.total) != (3, 128, 40) {
        return Err(Fail::from("another exchange is opened"));
    }
    let [event] = script.events.as_slice() else {
        return Err(Fail::from("there is other than one event"));
    };
    Ok(format!(in alloc; "{event:?}")?)
}

#[test]
fn each_event_is_read(rt: HostRuntime) -> Result<(), Fail> {
    let alloc = rt.alloc();
    for (line, event) in EVENTS {
        let read = event_read(alloc, line)?;
        assert_eq!(rt; read.as_str(), *event);
    }
    Ok(())
}

#[test]
fn replies_are_printed(rt: HostRuntime) -> Result<(), Fail> {
    let alloc = rt.alloc();
    for (reply, text) in [
        (Reply::Refused, "refused\n"),
        (Reply::Full, "full\n"),
        (Reply::Done, "ok\n"),
        (Reply::Nothing, "nothing\n"),
        (Reply::Absent, "none\n"),
        (Reply::Queued { c: 1, n: 3 }, "queued 1 3\n"),
        (
            Reply::Frame {
                c: 2,
                sequence: 0,
                what: SentKind::Buffer,
                len: 5,
                backlog: 1,
            },
            "frame 2 0 data 5 1\n",
        ),
        (
            Reply::Frame {
                c: 1,
                sequence: 7,
                what: SentKind::Inline,
                len: 8,
                backlog: 0,
            },
            "frame 1 7 inline 8 0\n",
        ),
        (
            Reply::Frame {
                c: 1,
                sequence: 4294967295,
                what: SentKind::End,
                len: 0,
                backlog: 0,
            },
            "frame 1 4294967295 end 0 0\n",
        ),
        (Reply::Announced { c: 1, n: 4 }, "announce 1 4\n"),
        (Reply::Accepted { c: 2, sequence: 1 }, "accepted 2 1\n"),
        (Reply::Backlog { c: 1, n: 4 }, "backlog 1 4\n"),
        (Reply::Credit { c: 1, n: 3 }, "credit 1 3\n"),
        (Reply::Granted { c: 1, n: 3 }, "granted 1 3\n"),
        (Reply::Resumed { c: 16 }, "resumed 16\n"),
        (Reply::Empty { c: 2 }, "empty 2\n"),
        (Reply::Held { c: 2 }, "held 2\n"),
        (
            Reply::Barrier {
                c: 2,
                k: 18446744073709551615,
                kind: BarrierKind::Inline,
            },
            "barrier 2 18446744073709551615 inline\n",
        ),
        (
            Reply::Barrier {
                c: 2,
                k: 1,
                kind: BarrierKind::Front,
            },
            "barrier 2 1 front\n",
        ),
        (Reply::End { c: 2 }, "end 2\n"),
        (Reply::NotYet { c: 3, k: 7 }, "not yet 3 7\n"),
        (Reply::Pool { free: 33, lent: 7 }, "pool 33 7\n"),
    ] {
        let mut out = ListOf::new(alloc);
        write_reply(&reply, &mut out)?;
        assert_eq!(rt; out.as_slice(), text.as_bytes());
    }
    Ok(())
}

#[test]
fn saved_pieces_are_printed(rt: HostRuntime) -> Result<(), Fail> {
    let alloc = rt.alloc();
    for (reply, text) in [
        (
            Reply::SavedOut {
                c: 2,
                k: 18446744073709551615,
                bytes: Bytes::of(alloc, &[0, 9, 10, 160, 255])?,
            },
            "saved_out 2 18446744073709551615 00090aa0ff\n",
        ),
        (
            Reply::SavedOut {
                c: 2,
                k: 1,
                bytes: Bytes::new(alloc),
            },
            "saved_out 2 1 -\n",
        ),
        (
            Reply::SavedIn {
                c: 2,
                k: 18446744073709551615,
                bytes: Bytes::of(alloc, &[0, 9, 10, 160, 255])?,
            },
            "saved_in 2 18446744073709551615 00090aa0ff\n",
        ),
        (
            Reply::SavedIn {
                c: 2,
                k: 1,
                bytes: Bytes::new(alloc),
            },
            "saved_in 2 1 -\n",
        ),
    ] {
        let mut out = ListOf::new(alloc);
        write_reply(&reply, &mut out)?;
        assert_eq!(rt; out.as_slice(), text.as_bytes());
    }
    Ok(())
}

#[test]
fn the_records_of_a_buffer_are_printed(rt: HostRuntime) -> Result<(), Fail> {
    let alloc = rt.alloc();
    let mut records = ListOf::new(alloc);
    records.push(Bytes::of(alloc, b"")?)?;
    records.push(Bytes::of(alloc, b"a b")?)?;
    let mut out = ListOf::new(alloc);
    write_reply(&Reply::Done, &mut out)?;
    write_reply(
        &Reply::Data {
            c: 2,
            len: 11,
            records,
        },
        &mut out,
    )?;
    assert_eq!(rt;
        out.as_slice(),
        b"ok\ndata 2 11 2\nrecord 2 \nrecord 2 a b\n".as_slice()
    );
    Ok(())
}
