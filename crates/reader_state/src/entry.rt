// What is done to the readers of a connection.

use credit_reader::SentKind;
use flow_defs::{ChannelId, Head};

/// What one turn does to the readers. Histories are made of it; no value of it is made.
pub enum ReaderEntry {
    /// It was told what stands first on a channel, and how many data buffers wait there.
    Ready {
        channel: ChannelId,
        head: Head,
        backlog: u32,
    },
    /// An item was sent, and then this stands first and so many data buffers wait.
    Sent {
        channel: ChannelId,
        what: SentKind,
        head: Head,
        backlog: u32,
    },
    /// The backlog was announced.
    Told {
        channel: ChannelId,
    },
    /// The channel was requested, with a credit.
    Asked {
        channel: ChannelId,
        credit: u32,
    },
    /// More credit came.
    Granted {
        channel: ChannelId,
        credit: u32,
    },
    /// A resumption came.
    Resumed {
        channel: ChannelId,
    },
}
