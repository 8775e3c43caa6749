// The receiving end of a channel.
ghost use Rattle.std.specs.Prelude.{◌≡◌, ◌+◌, ◌<◌, ◌≤◌, ◌^◌, ◌==◌, ◌↔◌, suc, true, false, [], ◌∷◌, length, Some, None, option_map, is_some, nat_lt, IsOk, IsSome, IsNone, IfOk, IfErr, IfSome, IfNone, OnOk, OnErr, MatchBool};
ghost use Rattle.circular_buffer.specs.Buffer.{buffer};
ghost use Rattle.input_channel.specs.declared.entry.ReceiveEntry.TheVariants as entries;
ghost use Rattle.input_channel.specs.Inboxes.{front_waits};
ghost use Rattle.input_channel.specs.Counts.{free, floating_held, wants, told, lets_go};
ghost use Rattle.input_channel.specs.Legal.{owes};
ghost use Rattle.input_channel.specs.Kept.{empty_parts};
ghost use Rattle.input_channel.specs.States.{opening, channel_next, exclusive_here, segments_here, polled_barriers, AllowsSave, IsOpen};
ghost use Rattle.input_channel.specs.declared.arrival.ArrivalKind.TheVariants as kinds;
ghost use Rattle.input_channel.specs.Answers.{parcel_in, kind_refused, refused, IsFault, gave_of, IsAnswer, GivesSaved, IsAnswerable};
ghost use Rattle.input_channel.specs.Steps.{with_data_in, with_barrier_in, IsBarrierFault};

use crate::arrival::{Arrival, ArrivalKind};
use crate::entry::ReceiveEntry;
use crate::fault::AcceptFault;
use crate::held::HeldBuf;
use crate::parts::{Parts, Saving};
use crate::polled::Polled;
use crate::queue::Queue;
use crate::segments::Segments;
use circular_buffer::HeapCircularBuffer;
use flow_defs::{BarrierKind, Bytes};
use segment_pool::Segment;
use std::alloc::{AllocError, Global};
use std::marker::Model;
use turn_cell::Turned;

/// No memory for a channel. It hands the segments back.
#[derive(Drop)]
pub struct NoRoom {
    pub first: Segment,
    pub second: Segment,
}

/// The receiving end of a channel, with its buffers and its credit.
///
/// Contracts see it as a `ChannelState`. All its segments have one length. `accept` of a buffer or the
/// end and `recycle` take constant time and no memory; a barrier and `poll` take constant time over many
/// calls, but for the copy of the data that an open save gains. A front barrier is found without a walk
/// past the data before it.
#[derive(Drop)]
pub struct InputChannel {
    parts: Box<Parts>,
}

impl Model for InputChannel {
    ghost use Rattle.input_channel.specs.States.{ChannelState};
    ghost use Rattle.input_channel.specs.Kept.{state_of, ArePartsKept};

    ghost Value = { ChannelState };

    ghost view = { λ c. state_of c.parts.value };

    ghost invariant = { λ c. ArePartsKept c.parts.value };
}

// The fields of a channel that has no buffer yet. They have the two credits of the buffers that come.
fn empty_parts(alloc: Global, size: u32, room: u32) -> Result<Box<Parts>, AllocError>
    requires { room < 2 ^ 31 }
    ensures { IfOk result (λ parts. parts.value ≡ empty_parts size room) }
{
    let queue = Queue::new(alloc, room)?;
    let exclusive = HeapCircularBuffer::with_capacity(alloc, 2)?;
    let floating = HeapCircularBuffer::with_capacity(alloc, room as usize)?;
    let parts = Parts {
        queue,
        reached: 0,
        save: None,
        exclusive,
        floating,
        pending: 0,
        required: 2,
        is_shut: false,
        credit: 2,
        announced: 2,
        received: 0,
        next: 0,
        last: 0,
        ended: false,
        end_waits: false,
        owed: 0,
        asked: 0,
        size,
        room,
    };
    Ok(Box::new(alloc, parts)?)
}

// How many resumptions a barrier asks for, once it is polled.
fn owes(kind: BarrierKind) -> u64
    ensures { result ≡ owes kind }
{
    match kind {
        BarrierKind::Inline => 1,
        BarrierKind::Front => 0,
    }
}

// A free segment, a floating one first, and whether it is an exclusive one.
fn take_free(
    floating: &mut HeapCircularBuffer<Segment>,
    exclusive: &mut HeapCircularBuffer<Segment>,
) -> (Segment, bool)
    requires { 0 < length floating.old.items + length exclusive.old.items }
    ensures kind { result.1 ≡ (length floating.old.items == 0) }
    ensures floating { MatchBool result.1 (floating.new ≡ floating.old) (floating.old ≡ buffer (result.0 ∷ floating.new.items) floating.new.capacity) }
    ensures exclusive { MatchBool result.1 (exclusive.old ≡ buffer (result.0 ∷ exclusive.new.items) exclusive.new.capacity) (exclusive.new ≡ exclusive.old) }
{
    if let Some(segment) = floating.pop_front() {
        return (segment, false);
    }
    match exclusive.pop_front() {
        Some(segment) => (segment, true),
        None => unreachable!(),
    }
}

impl InputChannel {
    /// A channel with its two exclusive buffers and room for so many, from 2 to 2,147,483,647.
    /// It takes the memory of its room at once.
    pub fn new(
        alloc: Global,
        first: Segment,
        second: Segment,
        room: u32,
    ) -> Result<InputChannel, NoRoom>
        requires same_size { length second ≡ length first }
        requires room { (2 ≤ room) × (room < 2 ^ 31) }
        ensures made { IfOk result (λ channel. channel ≡ opening (length first) room) }
        ensures refused { IfErr result (λ r. (r.first ≡ first) × (r.second ≡ second)) }
    {
        let size = first.bytes().len() as u32;
        let Ok(mut parts) = empty_parts(alloc, size, room) else {
            return Err(NoRoom { first, second });
        };
        parts.exclusive.push_back(first);
        parts.exclusive.push_back(second);
        Ok(InputChannel { parts })
    }

    /// Takes what a buffer response brought. The bytes are the content of a buffer, and count for
    /// nothing where another kind arrives.
    pub fn accept(&mut self, a: Arrival, bytes: &[u8]) -> Result<(), AcceptFault>
        requires { a.backlog < 2 ^ 31 }
        ensures accepted { OnOk result ((refused self.old a bytes.now ≡ None) × (self.new ≡ channel_next self.old (entries.Push (parcel_in a.what bytes.now) a.backlog))) }
        ensures refused { IfErr result (λ fault. (self.new ≡ self.old) × IsFault self.old a bytes.now fault) }
    {
        if a.sequence != self.parts.next {
            return Err(AcceptFault::WrongSequence {
                want: self.parts.next,
                got: a.sequence,
            });
        }
        if self.parts.ended {
            return Err(AcceptFault::AfterEnd);
        }
        match a.what {
            ArrivalKind::Buffer => self.accept_data(bytes)?,
            ArrivalKind::Barrier { k, kind } => self.accept_barrier(k, kind)?,
            ArrivalKind::End => {
                self.parts.ended = true;
                self.parts.end_waits = true;
            }
        }
        self.parts.next = self.parts.next.wrapping_add(1);
        self.parts.required = a.backlog + 2;
        Ok(())
    }

    fn accept_data(&mut self, bytes: &[u8]) -> Result<(), AcceptFault>
        requires { self.old.ended ≡ false }
        ensures accepted { OnOk result ((kind_refused self.old kinds.Buffer bytes.now ≡ None) × (self.new ≡ with_data_in self.old bytes.now)) }
        ensures refused { IfErr result (λ fault. (self.new ≡ self.old) × (kind_refused self.old kinds.Buffer bytes.now ≡ Some fault)) }
    {
        let parts = &mut *self.parts;
        if parts.credit == 0 {
            return Err(AcceptFault::OverCredit {
                received: parts.received.wrapping_add(1),
                announced: parts.announced,
            });
        }
        if bytes.len() > parts.size as usize {
            return Err(AcceptFault::OverSize {
                got: bytes.len(),
                size: parts.size,
            });
        }
        let (segment, exclusive) = take_free(&mut parts.floating, &mut parts.exclusive);
        parts
            .queue
            .push_data(HeldBuf::filled(segment, exclusive, bytes));
        parts.credit -= 1;
        parts.received = parts.received.wrapping_add(1);
        Ok(())
    }

    fn accept_barrier(&mut self, k: u64, kind: BarrierKind) -> Result<(), AcceptFault>
        requires { self.old.ended ≡ false }
        ensures accepted { OnOk result ((k ≡ suc self.old.last) × (self.new ≡ with_barrier_in self.old k kind)) }
        ensures refused { IfErr result (λ fault. (self.new ≡ self.old) × IsBarrierFault self.old k kind fault) }
    {
        let parts = &mut *self.parts;
        if k.checked_sub(1) != Some(parts.last) {
            return Err(AcceptFault::WrongBarrier {
                want: parts.last.wrapping_add(1),
                got: k,
            });
        }
        parts.queue.push_barrier(k, kind)?;
        parts.last = k;
        Ok(())
    }

    /// Obeys a backlog announcement.
    pub fn on_backlog(&mut self, n: u32)
        requires { n < 2 ^ 31 }
        ensures { self.new ≡ channel_next self.old (entries.Backlog n) }
    {
        let parts = &mut *self.parts;
        parts.required = n + 2;
    }

    /// How many floating segments it asks of its gate's pool.
    pub fn wants(&self) -> u32
        ensures { result ≡ wants self.now.room self.now.counts }
    {
        let parts = &*self.parts;
        let free = (parts.exclusive.len() + parts.floating.len()) as u32;
        let floating = parts.floating.len() as u32 + parts.queue.floating();
        parts
            .required
            .saturating_sub(free)
            .min(parts.room - 2 - floating)
    }

    /// Takes a floating segment from its gate's pool, and with it credit to announce.
    pub fn add_floating(&mut self, segment: Segment)
        requires wanted { 0 < wants self.old.room self.old.counts }
        requires size { length segment ≡ self.old.size }
        ensures { self.new ≡ channel_next self.old entries.Added }
    {
        let parts = &mut *self.parts;
        parts.floating.push_back(segment);
        parts.pending += 1;
    }

    /// Gives what is due: the first barrier where that is front, and else what came first. With `hold`
    /// barriers are held back. It takes memory only while a save is open, for data that came before the
    /// barrier of that; where there is none, nothing changes.
    pub fn poll(&mut self, hold: bool) -> Result<Polled, AllocError>
        ensures answered { self.old.save ≡ None → IsOk result }
        ensures kept { OnErr result (self.new ≡ self.old) }
        ensures answer { IfOk result (λ polled. IsAnswer hold self.old polled) }
        ensures answerable { IfOk result (λ polled. IsAnswerable polled self.new) }
        ensures channel { IfOk result (λ polled. self.new ≡ channel_next self.old (entries.Poll hold (gave_of polled))) }
    {
        let parts = &mut *self.parts;
        if let Some((k, kind)) = parts.queue.due_barrier() {
            if hold {
                return Ok(Polled::Held);
            }
            parts.queue.pop_barrier();
            parts.owed += owes(kind);
            return Ok(Polled::Barrier { k, kind });
        }
        if let Some(buf) = parts.take_data()? {
            return Ok(Polled::Buffer(buf));
        }
        if parts.end_waits {
            parts.end_waits = false;
            return Ok(Polled::End);
        }
        Ok(Polled::Empty)
    }

    /// Whether the first barrier that waits is front.
    pub fn front_waits(&self) -> bool
        ensures { result ≡ front_waits self.now.queue }
    {
        let parts = &*self.parts;
        parts.queue.front_waits()
    }

    /// Begins to save, for barrier k, the data that came before it and were not polled: those that wait,
    /// and those that come until the barrier does. `rest` is what was polled last of a record that is not
    /// whole, in bytes; it stands first in what is saved. Saving beside what goes on is FLIP-76's.
    ///
    /// It copies the rest alone. The data are copied when they are polled, or by `saved`.
    pub fn save(&mut self, alloc: Global, k: u64, rest: &[u8]) -> Result<(), AllocError>
        requires { AllowsSave self.old k }
        ensures saved { OnOk result (self.new ≡ channel_next self.old (entries.Save k rest.now)) }
        ensures kept { OnErr result (self.new ≡ self.old) }
    {
        let bytes = Bytes::of(alloc, rest)?;
        let parts = &mut *self.parts;
        parts.save = Some(Saving { number: k, bytes });
        Ok(())
    }

    /// What was saved for barrier k, once that has come, and `None` before. It closes the save. The data
    /// that wait before the barrier are copied, and stay to be polled: for n bytes and m barriers in the
    /// line it takes some n + m steps. An `Err` changes nothing.
    pub fn saved(&mut self, alloc: Global, k: u64) -> Result<Option<Bytes>, AllocError>
        requires { IsOpen self.old k }
        ensures not_yet { IfOk result (λ bytes. IsNone bytes ↔ (self.old.last < k)) }
        ensures none { IfOk result (λ bytes. IfNone bytes (self.new ≡ self.old)) }
        ensures some { IfOk result (λ bytes. IfSome bytes (λ piece. GivesSaved self.old k piece.items self.new)) }
        ensures kept { OnErr result (self.new ≡ self.old) }
    {
        let parts = &mut *self.parts;
        if parts.last < k {
            return Ok(None);
        }
        let bytes = parts.close(alloc, k)?;
        Ok(Some(bytes))
    }

    /// Whether a save is open.
    pub fn is_saving(&self) -> bool
        ensures { result ≡ is_some self.now.save }
    {
        self.parts.save.is_some()
    }

    /// The barrier for which a save is open.
    pub fn open_number(&self) -> Option<u64>
        ensures { result ≡ option_map (λ save. save.number) self.now.save }
    {
        match &self.parts.save {
            Some(saving) => Some(saving.number),
            None => None,
        }
    }

    /// How many barriers came before the data that were polled last. So a save for one of a higher number
    /// is in time.
    pub fn reached(&self) -> u64
        ensures { result ≡ self.now.reached }
    {
        self.parts.reached
    }

    /// How many barriers were polled. They are the first ones that came.
    pub fn polled_barriers(&self) -> u64
        ensures { result ≡ polled_barriers self.now }
    {
        let parts = &*self.parts;
        parts.last - parts.queue.waiting_barriers() as u64
    }

    /// The number of the last barrier that came, which is how many did.
    pub fn last(&self) -> u64
        ensures { result ≡ self.now.last }
    {
        self.parts.last
    }

    /// The length of the channel's segments, in bytes.
    pub fn size(&self) -> u32
        ensures { result ≡ self.now.size }
    {
        self.parts.size
    }

    /// Takes a buffer back that it gave. What it answers goes to the gate's pool.
    pub fn recycle(&mut self, buf: HeldBuf) -> Option<Segment>
        requires size { length buf.segment ≡ self.old.size }
        requires given { buf.exclusive ≡ true → exclusive_here self.old < 2 }
        ensures channel { self.new ≡ channel_next self.old (entries.Returned buf.exclusive) }
        ensures size { IfSome result (λ segment. length segment ≡ self.old.size) }
        ensures floating { buf.exclusive ≡ false → result ≡ Some buf.segment }
        ensures exclusive { buf.exclusive ≡ true → (IsSome result ↔ (lets_go self.old.counts ≡ true)) }
    {
        let parts = &mut *self.parts;
        let HeldBuf {
            segment,
            exclusive,
            ..
        } = buf;
        if !exclusive {
            return Some(segment);
        }
        let floating = parts.floating.len();
        let free = parts.exclusive.len() + floating;
        parts.exclusive.push_back(segment);
        if free >= parts.required as usize && floating > 0 {
            return parts.floating.pop_front();
        }
        parts.pending += 1;
        None
    }

    /// The credit to tell the sender, in buffers. It counts as announced from then on.
    pub fn take_credit(&mut self) -> u32
        ensures told { result ≡ told self.old.counts }
        ensures fits { result < 2 ^ 31 }
        ensures channel { self.new ≡ channel_next self.old (entries.Credit result) }
        ensures none { result ≡ 0 → self.new ≡ self.old }
    {
        let parts = &mut *self.parts;
        if parts.is_shut {
            return 0;
        }
        let told = parts.pending;
        parts.pending = 0;
        parts.credit += told;
        parts.announced = parts.announced.wrapping_add(told as u64);
        told
    }

    /// Ends the announcing of credit.
    pub fn shut(&mut self)
        requires { self.old.credit ≡ 0 }
        ensures { self.new ≡ channel_next self.old entries.Shut }
    {
        let parts = &mut *self.parts;
        parts.is_shut = true;
    }

    /// Whether the end was accepted.
    pub fn ended(&self) -> bool
        ensures { result ≡ self.now.ended }
    {
        self.parts.ended
    }

    /// Asks for one resumption, for an inline barrier that was polled.
    pub fn ask_resume(&mut self)
        requires { 0 < self.old.owed }
        ensures { self.new ≡ channel_next self.old entries.Ask }
    {
        let parts = &mut *self.parts;
        parts.owed -= 1;
        parts.asked += 1;
    }

    /// Takes a resumption, to tell the sender, if one was asked for.
    pub fn take_resume(&mut self) -> bool
        ensures taken { result ≡ nat_lt 0 self.old.asked }
        ensures channel { self.new ≡ channel_next self.old entries.Resume }
    {
        let parts = &mut *self.parts;
        if parts.asked == 0 {
            return false;
        }
        parts.asked -= 1;
        true
    }

    /// What every channel keeps: its free buffers are the credit that is open and the credit to
    /// announce, it has no more buffers than its room, and no more than two exclusive ones.
    pub fn is_covered(&self)
        ensures credit { free self.now.counts ≡ self.now.credit + self.now.counts.pending }
        ensures room { 2 + self.now.counts.floating + floating_held self.now.counts ≤ self.now.room }
        ensures exclusive { exclusive_here self.now ≤ 2 }
    {
        // Read so that what every channel keeps is known.
        let _credit = self.parts.credit;
    }

    /// Ends the channel. What waits there is lost, and its segments can go back to their pool.
    pub fn into_segments(self) -> Segments
        ensures { result ≡ record { left = segments_here self; size = self.size } }
    {
        let InputChannel { parts } = self;
        let Parts {
            queue,
            exclusive,
            floating,
            size,
            ..
        } = Box::into_inner(parts);
        Segments {
            exclusive,
            floating,
            buffers: queue.into_buffers(),
            size,
        }
    }
}

impl Turned for InputChannel {
    type Entry = ReceiveEntry;

    type Fixed = u32;

    ghost use Rattle.input_channel.specs.States.{ChannelStandsFor};

    ghost stands = { λ channel pairs. ChannelStandsFor channel pairs };

    ghost fixed = { λ channel. channel.size };
}
