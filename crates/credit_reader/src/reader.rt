// A reader of one channel.
ghost use Rattle.std.specs.Prelude.{◌≡◌, ◌+◌, ◌≤◌};
ghost use Rattle.credit_reader.specs.Readers.{can_send, is_due, may_go, cost, fresh, reader_next, Asked, Granted, Resumed, Ready, Sent, Announced};
ghost use Rattle.flow_defs.specs.Limits.{credit_max};

use flow_defs::{ChannelId, Head};

/// The most credit, and the greatest backlog, that a frame carries: 2^31 − 1 buffers.
pub const CREDIT_MAX: u32 = 2_147_483_647;

/// What a reader has sent: a data buffer, a barrier in line with the data or in front of them, or the end.
#[derive(Clone, Copy, Debug, PartialEq, Eq)]
pub enum SentKind {
    Buffer,
    Inline,
    Front,
    End,
}

/// An announcement: so many data buffers wait on this channel for credit.
#[derive(Clone, Copy, Debug, PartialEq, Eq)]
pub struct Told {
    pub channel: ChannelId,
    /// At least 1, and at most `CREDIT_MAX`.
    pub backlog: u32,
}

/// What the sending end knows of one channel. Contracts see `Readers` as a list of these.
#[derive(Clone, Copy)]
pub struct Reader {
    pub channel: ChannelId,
    pub requested: bool,
    /// An inline barrier was sent, and consumption was not resumed since.
    pub blocked: bool,
    /// How many data buffers may still be sent.
    pub credit: u32,
    /// What stands first.
    pub head: Head,
    /// How many data buffers wait.
    pub backlog: u32,
    /// The backlog that the receiving end was told last, 0 at first.
    pub told: u32,
    /// The number of the next item.
    pub sequence: u32,
}

impl Reader {
    // The reader of a channel that was not requested yet.
    pub(crate) fn new(channel: ChannelId) -> Self
        ensures { result ≡ fresh channel }
    {
        Reader {
            channel,
            requested: false,
            blocked: false,
            credit: 0,
            head: Head::Nothing,
            backlog: 0,
            told: 0,
            sequence: 0,
        }
    }

    // Whether it can send.
    pub(crate) fn can_send(&self) -> bool
        ensures { result ≡ can_send self.now }
    {
        self.requested && !self.blocked && may_go(self.head, self.credit)
    }

    // Whether its backlog is to be announced.
    pub(crate) fn is_due(&self) -> bool
        ensures { result ≡ is_due self.now }
    {
        self.requested && self.credit == 0 && self.backlog > 0 && self.told == 0
    }

    // The reader once its channel is requested.
    pub(crate) fn asked(self, credit: u32) -> Self
        ensures { result ≡ reader_next self (Asked credit) }
    {
        Reader {
            requested: true,
            credit,
            ..self
        }
    }

    // The reader with more credit.
    pub(crate) fn granted(self, n: u32) -> Self
        requires { self.credit + n ≤ credit_max }
        ensures { result ≡ reader_next self (Granted n) }
    {
        Reader {
            credit: self.credit + n,
            ..self
        }
    }

    // The reader once consumption is resumed.
    pub(crate) fn resumed(self) -> Self
        ensures { result ≡ reader_next self Resumed }
    {
        Reader {
            blocked: false,
            ..self
        }
    }

    // The reader once it is told what stands first, and how many data buffers wait.
    pub(crate) fn ready(self, head: Head, backlog: u32) -> Self
        ensures { result ≡ reader_next self (Ready head backlog) }
    {
        Reader {
            head,
            backlog,
            ..self
        }
    }

    // The reader after it has sent an item, with what stands first then and how many data buffers wait.
    pub(crate) fn sent(self, what: SentKind, head: Head, backlog: u32) -> Self
        requires { cost what ≤ self.credit }
        ensures { result ≡ reader_next self (Sent what head backlog) }
    {
        Reader {
            blocked: what == SentKind::Inline,
            credit: self.credit - cost(what),
            head,
            backlog,
            told: backlog,
            sequence: self.sequence.wrapping_add(1),
            ..self
        }
    }

    // The reader after its backlog was announced.
    pub(crate) fn announced(self) -> Self
        ensures { result ≡ reader_next self Announced }
    {
        Reader {
            told: self.backlog,
            ..self
        }
    }
}

// Whether what stands first may go with so much credit.
fn may_go(head: Head, credit: u32) -> bool
    ensures { result ≡ may_go head credit }
{
    match head {
        Head::Nothing => false,
        Head::Buffer => credit > 0,
        Head::Event => true,
    }
}

// The credit that an item costs.
fn cost(what: SentKind) -> u32
    ensures { result ≡ cost what }
{
    match what {
        SentKind::Buffer => 1,
        SentKind::Inline | SentKind::Front | SentKind::End => 0,
    }
}
