// Replies, and the lines that tell them.
ghost use Rattle.std.specs.Prelude.{◌≡◌, ◌<◌, ◌≤◌, ◌+◌, ◌++◌, ◌∷◌, [], map, length, take, decimal, IsOk, OnOk, OnErr};
ghost use Rattle.hex.specs.Hex.{encode_lower};
ghost use Rattle.script_text.specs.Scripts.{line_of, kind_word};
ghost use Rattle.script_text.specs.Replies.{reply_lines, printed, sent_word, bytes_word};
ghost use Rattle.script_text.specs.Writing.{part_word, digits_text, data_lines};

use credit_reader::SentKind;
use flow_defs::{BarrierKind, Bytes, ListOf};
use itoa::Buffer;
use std::alloc::AllocError;

/// What an event comes to. Channels are counted from 1; lengths are in bytes.
#[derive(Debug, Drop)]
pub enum Reply {
    /// The event may not happen now.
    Refused,
    /// There is no room for what was to be put.
    Full,
    /// The event happened.
    Done,
    /// There is nothing to send.
    Nothing,
    /// There is nothing to get, or no credit to announce.
    Absent,
    /// A record was put, and the channel's backlog is n.
    Queued {
        c: u32,
        n: u32,
    },
    /// A data frame was sent, with its number on the channel, the length of its content and the
    /// channel's backlog behind it.
    Frame {
        c: u32,
        sequence: u32,
        what: SentKind,
        len: u32,
        backlog: u32,
    },
    /// A backlog of n was announced.
    Announced {
        c: u32,
        n: u32,
    },
    /// A data frame was accepted.
    Accepted {
        c: u32,
        sequence: u32,
    },
    /// A backlog of n came to the receiver.
    Backlog {
        c: u32,
        n: u32,
    },
    /// A credit of n was announced.
    Credit {
        c: u32,
        n: u32,
    },
    /// A credit of n came to the sender.
    Granted {
        c: u32,
        n: u32,
    },
    /// The sender may go on behind a barrier.
    Resumed {
        c: u32,
    },
    /// No item stands on the channel.
    Empty {
        c: u32,
    },
    /// A barrier stands first on the channel, and was not taken.
    Held {
        c: u32,
    },
    /// Checkpoint k's barrier was taken.
    Barrier {
        c: u32,
        k: u64,
        kind: BarrierKind,
    },
    /// Checkpoint k's front barrier was put, and has overtaken these bytes.
    SavedOut {
        c: u32,
        k: u64,
        bytes: Bytes,
    },
    /// The end of the channel was taken.
    End {
        c: u32,
    },
    /// A buffer of len bytes was taken, with which these records became whole.
    Data {
        c: u32,
        len: u32,
        records: ListOf<Bytes>,
    },
    /// Checkpoint k's barrier has not come, so what is saved for it is not all there.
    NotYet {
        c: u32,
        k: u64,
    },
    /// These bytes were saved of the channel for checkpoint k.
    SavedIn {
        c: u32,
        k: u64,
        bytes: Bytes,
    },
    /// So many segments are free, and so many lent.
    Pool {
        free: u32,
        lent: u32,
    },
}

// A word of a reply's line.
#[derive(Clone, Copy)]
enum Part<'a> {
    Word { text: &'a [u8] },
    Number { number: u64 },
    Saved { bytes: &'a [u8] },
}

/// Writes the lines of a reply at the end of what was written, all of them or none.
pub fn write_reply(reply: &Reply, out: &mut ListOf<u8>) -> Result<(), AllocError>
    ensures ok { OnOk result (out.new.items ≡ out.old.items ++ printed (reply_lines reply.now)) }
    ensures err { OnErr result (out.new.items ≡ out.old.items) }
    ensures succeeds { length (printed (reply_lines reply.now)) ≤ out.old.room → IsOk result }
    ensures room { out.old.room ≤ out.new.room + length (printed (reply_lines reply.now)) }
{
    let before = out.as_slice().len();
    let written = add_reply(reply, out);
    if written.is_err() {
        'cut: while out.as_slice().len() > before {
            out.pop();
        }
    }
    written
}

// Writes the lines of a reply, or what memory allows of them.
fn add_reply(reply: &Reply, out: &mut ListOf<u8>) -> Result<(), AllocError>
    ensures ok { OnOk result (out.new.items ≡ out.old.items ++ printed (reply_lines reply.now)) }
    ensures err { OnErr result (take (length out.old.items) out.new.items ≡ out.old.items) }
    ensures succeeds { length (printed (reply_lines reply.now)) ≤ out.old.room → IsOk result }
    ensures room { out.old.room ≤ out.new.room + length (printed (reply_lines reply.now)) }
{
    match reply {
        Reply::Refused => add_line(out, "refused", &[]),
        Reply::Full => add_line(out, "full", &[]),
        Reply::Done => add_line(out, "ok", &[]),
        Reply::Nothing => add_line(out, "nothing", &[]),
        Reply::Absent => add_line(out, "none", &[]),
        Reply::Queued { c, n } => add_line(out, "queued", &[number(*c), number(*n)]),
        Reply::Frame {
            c,
            sequence,
            what,
            len,
            backlog,
        } => add_line(
            out,
            "frame",
            &[
                number(*c),
                number(*sequence),
                Part::Word {
                    text: sent_word(*what).as_bytes(),
                },
                number(*len),
                number(*backlog),
            ],
        ),
        Reply::Announced { c, n } => add_line(out, "announce", &[number(*c), number(*n)]),
        Reply::Accepted { c, sequence } => {
            add_line(out, "accepted", &[number(*c), number(*sequence)])
        }
        Reply::Backlog { c, n } => add_line(out, "backlog", &[number(*c), number(*n)]),
        Reply::Credit { c, n } => add_line(out, "credit", &[number(*c), number(*n)]),
        Reply::Granted { c, n } => add_line(out, "granted", &[number(*c), number(*n)]),
        Reply::Resumed { c } => add_line(out, "resumed", &[number(*c)]),
        Reply::Empty { c } => add_line(out, "empty", &[number(*c)]),
        Reply::Held { c } => add_line(out, "held", &[number(*c)]),
        Reply::Barrier { c, k, kind } => add_line(
            out,
            "barrier",
            &[
                number(*c),
                Part::Number { number: *k },
                Part::Word {
                    text: kind_word(*kind).as_bytes(),
                },
            ],
        ),
        Reply::SavedOut { c, k, bytes } => add_line(
            out,
            "saved_out",
            &[
                number(*c),
                Part::Number { number: *k },
                Part::Saved {
                    bytes: bytes.as_slice(),
                },
            ],
        ),
        Reply::End { c } => add_line(out, "end", &[number(*c)]),
        Reply::Data { c, len, records } => add_data(out, *c, *len, records.as_slice()),
        Reply::NotYet { c, k } => {
            add_line(out, "not yet", &[number(*c), Part::Number { number: *k }])
        }
        Reply::SavedIn { c, k, bytes } => add_line(
            out,
            "saved_in",
            &[
                number(*c),
                Part::Number { number: *k },
                Part::Saved {
                    bytes: bytes.as_slice(),
                },
            ],
        ),
        Reply::Pool { free, lent } => add_line(out, "pool", &[number(*free), number(*lent)]),
    }
}

// Writes the lines of a buffer that was taken.
fn add_data(out: &mut ListOf<u8>, c: u32, len: u32, records: &[Bytes]) -> Result<(), AllocError>
    ensures ok { OnOk result (out.new.items ≡ out.old.items ++ printed (data_lines c len records.now)) }
    ensures err { OnErr result (take (length out.old.items) out.new.items ≡ out.old.items) }
    ensures succeeds { length (printed (data_lines c len records.now)) ≤ out.old.room → IsOk result }
    ensures room { out.old.room ≤ out.new.room + length (printed (data_lines c len records.now)) }
{
    let count = Part::Number {
        number: records.len() as u64,
    };
    add_line(out, "data", &[number(c), number(len), count])?;
    for record in records {
        let text = record.as_slice();
        add_line(out, "record", &[number(c), Part::Word { text }])?;
    }
    Ok(())
}

// Writes the line of these words, or what memory allows of it.
fn add_line(out: &mut ListOf<u8>, first: &str, parts: &[Part]) -> Result<(), AllocError>
    ensures ok { OnOk result (out.new.items
        ≡ out.old.items ++ line_of (first.now ∷ map part_word parts.now) ++ 10 ∷ []) }
    ensures err { OnErr result (take (length out.old.items) out.new.items ≡ out.old.items) }
    ensures succeeds { length (line_of (first.now ∷ map part_word parts.now)) < out.old.room → IsOk result }
    ensures room { out.old.room ≤ out.new.room + length (line_of (first.now ∷ map part_word parts.now)) + 1 }
{
    out.extend(first.as_bytes())?;
    for part in parts {
        add_part(out, part)?;
    }
    out.push(b'\n')
}

// Writes a word behind the one before it, or what memory allows of it.
fn add_part(out: &mut ListOf<u8>, part: &Part) -> Result<(), AllocError>
    ensures ok { OnOk result (out.new.items ≡ out.old.items ++ 32 ∷ part_word part.now) }
    ensures err { OnErr result (take (length out.old.items) out.new.items ≡ out.old.items) }
    ensures succeeds { length (part_word part.now) < out.old.room → IsOk result }
    ensures room { out.old.room ≤ out.new.room + length (part_word part.now) + 1 }
{
    out.push(b' ')?;
    match *part {
        Part::Word { text } => out.extend(text),
        Part::Number { number } => out.extend(Buffer::new().format(number).as_bytes()),
        Part::Saved { bytes } => add_bytes(out, bytes),
    }
}

// Writes bytes as a word, or what memory allows of it.
#[tactic(auto, using(crate::proofs::Writings::some_bytes, crate::proofs::Writings::no_bytes))]
fn add_bytes(out: &mut ListOf<u8>, bytes: &[u8]) -> Result<(), AllocError>
    ensures ok { OnOk result (out.new.items ≡ out.old.items ++ bytes_word bytes.now) }
    ensures err { OnErr result (take (length out.old.items) out.new.items ≡ out.old.items) }
    ensures succeeds { length (bytes_word bytes.now) ≤ out.old.room → IsOk result }
    ensures room { out.old.room ≤ out.new.room + length (bytes_word bytes.now) }
{
    if bytes.is_empty() {
        return out.push(b'-');
    }
    add_digits(out, bytes)
}

// Writes two digits for each byte, or what memory allows of them.
fn add_digits(out: &mut ListOf<u8>, bytes: &[u8]) -> Result<(), AllocError>
    ensures ok { OnOk result (out.new.items ≡ out.old.items ++ digits_text bytes.now) }
    ensures err { OnErr result (take (length out.old.items) out.new.items ≡ out.old.items) }
    ensures succeeds { length (digits_text bytes.now) ≤ out.old.room → IsOk result }
    ensures room { out.old.room ≤ out.new.room + length (digits_text bytes.now) }
{
    for byte in bytes {
        out.extend(&digits_of(*byte))?;
    }
    Ok(())
}

// The two digits of a byte in hexadecimal.
fn digits_of(byte: u8) -> [u8; 2]
    ensures { result ≡ encode_lower (byte ∷ []) }
{
    let mut digits = [0; 2];
    let Ok(()) = hex::encode_to_slice([byte], &mut digits) else {
        unreachable!()
    };
    digits
}

// A number as a word.
fn number<'a>(number: u32) -> Part<'a>
    ensures { part_word result ≡ decimal number }
{
    Part::Number {
        number: u64::from(number),
    }
}

// How what a frame carries is spelled.
fn sent_word(what: SentKind) -> &'static str
    ensures { result.now ≡ sent_word what }
{
    match what {
        SentKind::Buffer => "data",
        SentKind::Inline => "inline",
        SentKind::Front => "front",
        SentKind::End => "end",
    }
}

// How the kind of a barrier is spelled.
fn kind_word(kind: BarrierKind) -> &'static str
    ensures { result.now ≡ kind_word kind }
{
    match kind {
        BarrierKind::Inline => "inline",
        BarrierKind::Front => "front",
    }
}
