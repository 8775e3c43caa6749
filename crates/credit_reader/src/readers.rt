// The readers of one connection.
ghost use Rattle.std.specs.Prelude.{◌≡◌, ◌<◌, ◌≤◌, ◌↔◌, Some, true, false, length, slice_get, All, IsTrue, IsSome, IsNone, IfOk, IfSome, OnOk, OnErr, MatchOption};
ghost use Rattle.std.specs.Option.{option_map, option_map_or};
ghost use Rattle.credit_reader.specs.Readers.{can_send, KeepsRanges, Asked, Granted, Resumed, Ready, Sent};
ghost use Rattle.credit_reader.specs.Senders.{AreDistinct, sender_of, reader_of, is_able, MayHappen, happened, has_sent};
ghost use Rattle.credit_reader.specs.Answers.{request_answer, credit_answer, resume_answer, due_first, told_of, announced};
ghost use Rattle.flow_defs.specs.Limits.{credit_max};

use crate::{CREDIT_MAX, CreditFault, Reader, RequestFault, ResumeFault, SentKind, Told};
use circular_buffer::HeapCircularBuffer;
use flow_defs::{ChannelId, Head};
use std::alloc::{AllocError, Global};
use std::marker::Model;

/// The readers of one connection's channels: which of them can send, and in which order they do.
///
/// A channel is found by a walk of the readers. Beside that each call but `announce` takes constant
/// time, except where `ready` says that a reader can no longer send: it is then looked for in the queue.
#[derive(Drop)]
pub struct Readers {
    pub(crate) all: Vec<Reader>,
    // The places of those that can send.
    pub(crate) able: HeapCircularBuffer<usize>,
}

impl Model for Readers {
    ghost use Rattle.credit_reader.specs.Senders.{Sender};

    ghost Value = { Sender };

    ghost use Rattle.credit_reader.specs.Places.{seen, IsQueue};

    ghost view = { λ r. seen r.all.items r.able.items };

    ghost invariant = { λ r. IsQueue r.all.items r.able.items r.able.capacity };
}

impl Readers {
    /// The readers of these channels. After this nothing takes memory.
    pub fn new(alloc: Global, channels: &[ChannelId]) -> Result<Self, AllocError>
        requires { AreDistinct channels.now }
        ensures { IfOk result (λ readers. readers ≡ sender_of channels.now) }
    {
        let mut all = Vec::with_capacity(alloc, channels.len())?;
        for channel in channels {
            all.push(Reader::new(*channel))?;
        }
        let able = HeapCircularBuffer::with_capacity(alloc, channels.len())?;
        Ok(Readers { all, able })
    }

    /// Takes a partition request, with the credit to begin with.
    pub fn request(&mut self, channel: ChannelId, credit: u32) -> Result<(), RequestFault>
        requires { credit ≤ credit_max }
        ensures answer { result ≡ request_answer (reader_of channel self.old.readers) }
        ensures ok { OnOk result (self.new ≡ happened channel (Asked credit) self.old) }
        ensures may { OnOk result (MayHappen channel (Asked credit) self.old) }
        ensures err { OnErr result (self.new ≡ self.old) }
    {
        let Some(found) = self.find(channel) else {
            return Err(RequestFault::UnknownChannel);
        };
        if found.reader.requested {
            return Err(RequestFault::Twice);
        }
        self.put(found.place, found.reader.asked(credit));
        Ok(())
    }

    /// Takes more credit, in buffers.
    pub fn add_credit(&mut self, channel: ChannelId, n: u32) -> Result<(), CreditFault>
        requires some { 1 ≤ n }
        requires fits { n ≤ credit_max }
        ensures answer { result ≡ credit_answer n (reader_of channel self.old.readers) }
        ensures ok { OnOk result (self.new ≡ happened channel (Granted n) self.old) }
        ensures may { OnOk result (MayHappen channel (Granted n) self.old) }
        ensures err { OnErr result (self.new ≡ self.old) }
    {
        let Some(found) = self.find(channel) else {
            return Err(CreditFault::UnknownChannel);
        };
        if !found.reader.requested {
            return Err(CreditFault::UnknownChannel);
        }
        let sum = u64::from(found.reader.credit) + u64::from(n);
        if sum > u64::from(CREDIT_MAX) {
            return Err(CreditFault::CreditOver { sum });
        }
        self.put(found.place, found.reader.granted(n));
        Ok(())
    }

    /// Resumes a channel that an inline barrier blocks.
    pub fn resume(&mut self, channel: ChannelId) -> Result<(), ResumeFault>
        ensures answer { result ≡ resume_answer (reader_of channel self.old.readers) }
        ensures ok { OnOk result (self.new ≡ happened channel Resumed self.old) }
        ensures may { OnOk result (MayHappen channel Resumed self.old) }
        ensures err { OnErr result (self.new ≡ self.old) }
    {
        let Some(found) = self.find(channel) else {
            return Err(ResumeFault::UnknownChannel);
        };
        if !found.reader.requested {
            return Err(ResumeFault::UnknownChannel);
        }
        if !found.reader.blocked {
            return Err(ResumeFault::NotBlocked);
        }
        self.put(found.place, found.reader.resumed());
        Ok(())
    }

    /// Tells what stands first in a channel's subpartition, and how many data buffers wait there.
    pub fn ready(&mut self, channel: ChannelId, head: Head, backlog: u32)
        requires known { IsSome (reader_of channel self.old.readers) }
        requires fits { backlog ≤ credit_max }
        ensures { self.new ≡ happened channel (Ready head backlog) self.old }
    {
        if let Some(found) = self.find(channel) {
            self.put(found.place, found.reader.ready(head, backlog));
        }
    }

    /// The channel whose turn it is to send one item. None where no reader can send.
    pub fn next(&self) -> Option<ChannelId>
        ensures first { result ≡ slice_get self.now.queue 0 }
        ensures can { IfSome result (λ channel. IsTrue (is_able channel self.now.readers)) }
        ensures none { IsNone result ↔ All (λ r. can_send r ≡ false) self.now.readers }
    {
        self.first().map(|found| found.reader.channel)
    }

    /// Takes note that the channel whose turn it was has sent one item, and tells what stands first now
    /// and how many data buffers are left. Answers the item's sequence number, modulo 2^32.
    pub fn sent(&mut self, channel: ChannelId, what: SentKind, head: Head, backlog: u32) -> u32
        requires first { slice_get self.old.queue 0 ≡ Some channel }
        requires credit { MayHappen channel (Sent what head backlog) self.old }
        requires fits { backlog ≤ credit_max }
        ensures number { option_map (λ r. r.sequence) (reader_of channel self.old.readers) ≡ Some result }
        ensures sent { self.new ≡ has_sent channel what head backlog self.old }
    {
        match self.first() {
            Some(found) => {
                self.turn(found.place, found.reader.sent(what, head, backlog));
                found.reader.sequence
            }
            None => unreachable!(),
        }
    }

    /// The first announcement that is due, in the order of the channels. It is then told. The cost is the
    /// number of channels.
    pub fn announce(&mut self) -> Option<Told>
        ensures answer { result ≡ option_map told_of (due_first self.old) }
        ensures fits { IfSome result (λ told. (1 ≤ told.backlog) × (told.backlog ≤ credit_max)) }
        ensures told { self.new ≡ announced self.old }
    {
        let found = self.find_due()?;
        self.put(found.place, found.reader.announced());
        Some(Told {
            channel: found.reader.channel,
            backlog: found.reader.backlog,
        })
    }
}
