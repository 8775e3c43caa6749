// Why a command was not done: its status, and the line that tells of it.
ghost use Rattle.std.specs.Prelude.{◌≡◌, ◌++◌, decimal, flat_map};
ghost use Rattle.command_parts.specs.FaultTexts.{usage_text, job_fault_text, peer_text, fault_text, part_text};

use flow_defs::{ChannelId, PeerFault};
use job_text::{JobFault, UsageKind};
use std::alloc::AllocError;

/// A part of a fault's text: a text, and a number behind it.
#[derive(Clone, Copy, Debug, PartialEq, Eq)]
pub struct Part {
    pub text: &'static str,
    pub number: Option<u64>,
}

const NOTHING: Part = Part {
    text: "",
    number: None,
};

/// Why a command was not done.
#[derive(Clone, Copy, Debug, PartialEq, Eq)]
pub enum Fault {
    /// The words are no command.
    Usage {
        kind: UsageKind,
    },
    /// A line of the job's text is no line of a job. Lines are counted from 1.
    JobLine {
        line: u64,
        kind: JobFault,
    },
    /// A line of the script's text is no line of a script. Lines are counted from 1.
    ScriptLine {
        line: u64,
    },
    /// The job's text was not found, or a read of it failed.
    JobInput,
    /// The script's text was not found, or a read of it failed.
    ScriptInput,
    /// A source was not found, or a read of it failed. Sources are counted from 0.
    SourceInput {
        source: u32,
    },
    /// The keeper failed.
    Keeper,
    /// The output failed, or took nothing.
    Output,
    /// The keeper's last image has this number, and a run begins without one.
    HoldsImage {
        number: u64,
    },
    /// The keeper holds no image.
    HoldsNoImage,
    /// What the keeper holds under this number is no image of that number. The place is that of the first byte of the
    /// first faulty field, counted from 0.
    NotImage {
        number: u64,
        place: u64,
    },
    /// The job's text is over its limit.
    LongJob,
    /// The script's text is over its limit.
    LongScript,
    /// A line of a source is longer than a record may be.
    LongLine {
        source: u32,
    },
    /// A source is over its limit.
    BigSource {
        source: u32,
    },
    /// An image is too large for its format: a number of keys or runs in it, or the length of a saved piece in bytes, is above
    /// 4,294,967,295.
    BigImage,
    /// The pool has fewer segments than the job's channels need, or those of the connection that the script opens.
    TooFewSegments {
        have: u32,
        need: u32,
    },
    /// A half of a link failed.
    Link,
    /// A data frame came whose number on its channel is above the credit that was announced there.
    OverCredit {
        channel: ChannelId,
        received: u64,
        announced: u64,
    },
    /// What came over a link is not what a sound other end sends.
    Peer {
        fault: PeerFault,
    },
    Memory,
}

impl From<AllocError> for Fault {
    ghost use Rattle.command_parts.specs.declared.fault.Fault.TheVariants.{Memory};

    ghost from_gives = { λ _ e. e ≡ Memory };

    fn from(_: AllocError) -> Self {
        Fault::Memory
    }
}

impl Fault {
    ghost use Rattle.command_parts.specs.Causes.{status_of};

    /// The status with which the program ends.
    pub fn status(self) -> u8
        ensures { result ≡ status_of self }
    {
        match self {
            Fault::Usage { .. } => 2,
            Fault::JobLine { .. } | Fault::ScriptLine { .. } => 3,
            Fault::JobInput | Fault::ScriptInput | Fault::SourceInput { .. } => 4,
            Fault::Keeper => 5,
            Fault::Link => 6,
            Fault::Output => 7,
            Fault::HoldsImage { .. } | Fault::HoldsNoImage | Fault::NotImage { .. } => 8,
            Fault::LongJob | Fault::LongScript => 10,
            Fault::LongLine { .. } | Fault::BigSource { .. } | Fault::BigImage => 10,
            Fault::TooFewSegments { .. } => 10,
            Fault::OverCredit { .. } => 11,
            Fault::Peer { .. } => 12,
            Fault::Memory => 70,
        }
    }

    /// The text that tells of it, in parts.
    pub fn text(self) -> [Part; 5]
        ensures { flat_map part_text result ≡ fault_text self }
    {
        match self {
            Fault::Usage { kind } => both(plain("usage: "), plain(usage(kind))),
            Fault::JobLine { line, kind } => both(
                numbered("job line ", line),
                plain(job_fault(kind)),
            ),
            Fault::ScriptLine { line } => both(numbered("script line ", line), plain(": bad line")),
            Fault::JobInput => alone(plain("input fault: job")),
            Fault::ScriptInput => alone(plain("input fault: script")),
            Fault::SourceInput { source } => {
                alone(numbered("input fault: source ", source as u64))
            }
            Fault::Keeper => alone(plain("keeper fault")),
            Fault::Link => alone(plain("link fault")),
            Fault::Output => alone(plain("output fault")),
            Fault::HoldsImage { number } => alone(numbered("keeper holds image ", number)),
            Fault::HoldsNoImage => alone(plain("keeper holds no image")),
            Fault::NotImage { number, place } => not_image(number, place),
            Fault::LongJob => alone(plain("job over 65536")),
            Fault::LongScript => alone(plain("script over 16777216")),
            Fault::LongLine { source } => both(
                numbered("source ", source as u64),
                plain(": line over 1048576"),
            ),
            Fault::BigSource { source } => both(
                numbered("source ", source as u64),
                plain(": over 1099511627776"),
            ),
            Fault::BigImage => alone(plain("image over 4294967295")),
            Fault::TooFewSegments { have, need } => both(
                numbered("pool has ", have as u64),
                numbered(", needs ", need as u64),
            ),
            Fault::OverCredit {
                channel,
                received,
                announced,
            } => over_credit(channel, received, announced),
            Fault::Peer { fault } => both(plain("peer: "), plain(peer(fault))),
            Fault::Memory => alone(plain("out of memory")),
        }
    }
}

fn plain(text: &'static str) -> Part
    ensures { part_text result ≡ text.now }
{
    Part { text, number: None }
}

fn numbered(text: &'static str, number: u64) -> Part
    ensures { part_text result ≡ text.now ++ decimal number }
{
    Part {
        text,
        number: Some(number),
    }
}

fn alone(part: Part) -> [Part; 5]
    ensures { flat_map part_text result ≡ part_text part }
{
    [part, NOTHING, NOTHING, NOTHING, NOTHING]
}

fn both(first: Part, second: Part) -> [Part; 5]
    ensures { flat_map part_text result ≡ part_text first ++ part_text second }
{
    [first, second, NOTHING, NOTHING, NOTHING]
}

fn not_image(number: u64, place: u64) -> [Part; 5]
    ensures { flat_map part_text result ≡ fault_text (Fault.NotImage number place) }
{
    let image = numbered("image ", number);
    let fault = numbered(": not an image at ", place);
    both(image, fault)
}

fn over_credit(channel: ChannelId, received: u64, announced: u64) -> [Part; 5]
    ensures { flat_map part_text result ≡ fault_text (Fault.OverCredit channel received announced) }
{
    let edge = numbered("over credit on ", channel.edge as u64);
    let from = numbered(" ", channel.from as u64);
    let to = numbered(" ", channel.to as u64);
    let got = numbered(": received ", received);
    let most = numbered(", announced ", announced);
    [edge, from, to, got, most]
}

fn usage(kind: UsageKind) -> &'static str
    ensures { result.now ≡ usage_text kind }
{
    match kind {
        UsageKind::NoCommand => "no command",
        UsageKind::UnknownCommand => "unknown command",
        UsageKind::MissingOperand => "missing operand",
        UsageKind::UnknownOption => "unknown option",
        UsageKind::ExtraWord => "extra word",
        UsageKind::BadValue => "bad value",
        UsageKind::OptionTwice => "option twice",
        UsageKind::MissingValue => "missing value",
    }
}

fn job_fault(kind: JobFault) -> &'static str
    ensures { result.now ≡ job_fault_text kind }
{
    match kind {
        JobFault::Missing => ": missing",
        JobFault::Extra => ": extra",
        JobFault::BadLine => ": bad line",
        JobFault::TooMany => ": too many",
        JobFault::UnknownKind => ": unknown kind",
        JobFault::NoFunction => ": no function",
        JobFault::BadNumber => ": bad number",
        JobFault::BadExchange => ": bad exchange",
        JobFault::BadWidth => ": bad width",
    }
}

fn peer(fault: PeerFault) -> &'static str
    ensures { result.now ≡ peer_text fault }
{
    match fault {
        PeerFault::BadFrame => "bad frame",
        PeerFault::Sequence => "wrong sequence",
        PeerFault::Barrier => "wrong barrier",
        PeerFault::Size => "wrong size",
        PeerFault::AfterEnd => "after end",
        PeerFault::Channel => "wrong channel",
        PeerFault::Credit => "credit over",
        PeerFault::Resume => "not blocked",
        PeerFault::Left => "record cut",
        PeerFault::Cut => "link cut",
        PeerFault::Refused => "refused",
    }
}
