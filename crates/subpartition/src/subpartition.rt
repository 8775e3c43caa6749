// What stands to be sent on a channel.
ghost use Rattle.std.specs.Prelude.{◌≡◌, ◌≤◌, ◌<◌, [], ◌∷◌, ◌++◌, length, take, drop, IfOk};
ghost use Rattle.circular_buffer.specs.Buffer.{buffer};
ghost use Rattle.flow_defs.specs.Barriers.{behind_last};
ghost use Rattle.subpartition.specs.Queues.{data_in, is_mark};

use crate::item::{Filled, Item};
use circular_buffer::HeapCircularBuffer;
use flow_defs::{BarrierKind, Bytes, Head};
use std::alloc::{AllocError, Global};
use std::marker::Model;

/// What stands to be sent on a channel: data buffers, barriers and the end, in the order in which they
/// travel, as in Flink's pipelined subpartitions. It has room for so many items, which `new` reserves;
/// every other call but `put_front` takes constant time.
#[derive(Drop)]
pub struct Subpartition {
    queue: HeapCircularBuffer<Item>,
    // The number of buffers in the queue.
    buffers: u32,
    last_barrier: u64,
    ended: bool,
    segment_size: u32,
    fill: u32,
}

impl Model for Subpartition {
    ghost use Rattle.std.specs.Prelude.{◌≡◌, ◌≤◌};
    ghost use Rattle.flow_defs.specs.Limits.{segment_min, segment_max, credit_max};
    ghost use Rattle.subpartition.specs.Queues.{Queue, backlog_of};

    ghost Value = { Queue };

    ghost view = { λ s. record { items = s.queue.items; barriers = s.last_barrier; finished = s.ended; size = s.segment_size; room = s.queue.capacity; fill_size = s.fill } };

    ghost invariant = { λ s. (s.buffers ≡ backlog_of s.queue.items) × (s.queue.capacity ≤ credit_max) × (s.segment_size ≤ segment_max) × (segment_min ≤ s.fill) × (s.fill ≤ s.segment_size) };
}

impl Subpartition {
    ghost use Rattle.std.specs.Prelude.{◌≡◌, ◌+◌, ◌<◌, ◌≤◌, false, length, slice_get, IfOk, OnOk, OnErr};
    ghost use Rattle.flow_defs.specs.Limits.{segment_min, segment_max, credit_max};
    ghost use Rattle.subpartition.specs.Queues.{backlog_of, head_of, empty_queue, with_buffer, with_barrier, with_front_barrier, overtaken_in, with_end, without_first, filling_to};

    /// An empty subpartition for segments of `size` bytes, with room for `room` items, from 1 to
    /// 2,147,483,647. At first buffers are filled whole.
    pub fn new(alloc: Global, size: u32, room: u32) -> Result<Self, AllocError>
        requires size { (segment_min ≤ size) × (size ≤ segment_max) }
        requires room { (1 ≤ room) × (room ≤ credit_max) }
        ensures { IfOk result (λ subpartition. subpartition ≡ empty_queue size room) }
    {
        Ok(Subpartition {
            queue: HeapCircularBuffer::with_capacity(alloc, room as usize)?,
            buffers: 0,
            last_barrier: 0,
            ended: false,
            segment_size: size,
            fill: size,
        })
    }

    /// Puts a buffer behind all other items.
    #[tactic(auto, using(crate::proofs::Items::backlog_with_buffer, crate::proofs::Items::backlog_within))]
    pub fn put(&mut self, filled: Filled)
        requires open_end { self.old.finished ≡ false }
        requires room { length self.old.items < self.old.room }
        ensures { self.new ≡ with_buffer self.old filled }
    {
        push(&mut self.queue, Item::Buffer(filled));
        self.buffers += 1;
    }

    /// Puts an inline barrier, that of an aligned checkpoint, behind all other items.
    #[tactic(auto, using(crate::proofs::Items::backlog_with_barrier))]
    pub fn put_inline(&mut self, k: u64)
        requires open_end { self.old.finished ≡ false }
        requires room { length self.old.items < self.old.room }
        requires next { k ≡ self.old.barriers + 1 }
        ensures { self.new ≡ with_barrier self.old k }
    {
        let kind = BarrierKind::Inline;
        push(&mut self.queue, Item::Barrier { k, kind });
        self.last_barrier = k;
    }

    /// Puts a front barrier, that of an unaligned checkpoint of FLIP-76, directly behind the last barrier that
    /// stands here, before all data behind that. Answers those data, which it overtakes; they stay, and are
    /// still sent. Each item is moved once, and each byte that is overtaken is copied once. Where there is no
    /// memory for the copy nothing changes.
    pub fn put_front(&mut self, alloc: Global, k: u64) -> Result<Bytes, AllocError>
        requires open_end { self.old.finished ≡ false }
        requires room { length self.old.items < self.old.room }
        requires next { k ≡ self.old.barriers + 1 }
        ensures ok { OnOk result (self.new ≡ with_front_barrier self.old k) }
        ensures overtaken { IfOk result (λ bytes. bytes.items ≡ overtaken_in self.old) }
        ensures err { OnErr result (self.new ≡ self.old) }
    {
        let behind = behind_last_barrier(&self.queue);
        let place = self.queue.len() - behind;
        let overtaken = data_behind(alloc, &self.queue, place)?;
        let kind = BarrierKind::Front;
        turn_round(&mut self.queue, place);
        push(&mut self.queue, Item::Barrier { k, kind });
        turn_round(&mut self.queue, behind);
        self.last_barrier = k;
        Ok(overtaken)
    }

    /// Puts the end. Nothing may be put behind it.
    #[tactic(auto, using(crate::proofs::Items::backlog_with_end))]
    pub fn finish(&mut self)
        requires open_end { self.old.finished ≡ false }
        requires room { length self.old.items < self.old.room }
        ensures { self.new ≡ with_end self.old }
    {
        push(&mut self.queue, Item::End);
        self.ended = true;
    }

    /// Takes the first item.
    pub fn take(&mut self) -> Option<Item>
        ensures first { result ≡ slice_get self.old.items 0 }
        ensures rest { self.new ≡ without_first self.old }
    {
        let item = self.queue.pop_front();
        if let Some(Item::Buffer(_)) = &item {
            self.buffers -= 1;
        }
        item
    }

    /// The size of segments, in bytes.
    pub fn size(&self) -> u32
        ensures size { result ≡ self.now.size }
        ensures range { (segment_min ≤ result) × (result ≤ segment_max) }
    {
        self.segment_size
    }

    /// The number of data buffers, which the receiver is told. It is counted as items come and go.
    #[tactic(auto, using(crate::proofs::Items::backlog_within))]
    pub fn backlog(&self) -> u32
        ensures backlog { result ≡ backlog_of self.now.items }
        ensures most { result ≤ credit_max }
    {
        // Read so that it is known to be no more than the room.
        let _len = self.queue.len();
        self.buffers
    }

    /// What stands first.
    pub fn head(&self) -> Head
        ensures { result ≡ head_of self.now.items }
    {
        match self.queue.front() {
            None => Head::Nothing,
            Some(Item::Buffer(_)) => Head::Buffer,
            Some(_) => Head::Event,
        }
    }

    /// Up to how many bytes a buffer is filled: the desired buffer size of FLIP-183.
    pub fn fill_size(&self) -> u32
        ensures fill_size { result ≡ self.now.fill_size }
        ensures range { (segment_min ≤ result) × (result ≤ self.now.size) }
    {
        self.fill
    }

    /// From now on buffers are filled up to n bytes. Those that stand here stay as they are.
    pub fn set_fill_size(&mut self, n: u32)
        requires { (segment_min ≤ n) × (n ≤ self.old.size) }
        ensures { self.new ≡ filling_to self.old n }
    {
        self.fill = n;
    }

    /// How many items still fit.
    pub fn spare(&self) -> u32
        ensures { result + length self.now.items ≡ self.now.room }
    {
        (self.queue.capacity() - self.queue.len()) as u32
    }
}

// Adds an item at the end.
fn push(queue: &mut HeapCircularBuffer<Item>, item: Item)
    requires { length queue.old.items < queue.old.capacity }
    ensures { queue.new ≡ buffer (queue.old.items ++ item ∷ []) queue.old.capacity }
{
    let Ok(()) = queue.try_push_back(item) else {
        unreachable!()
    };
}

// How many items stand behind the last barrier.
fn behind_last_barrier(queue: &HeapCircularBuffer<Item>) -> usize
    ensures count { result ≡ length (behind_last is_mark queue.now.items) }
    ensures within { result ≤ length queue.now.items }
{
    let len = queue.len();
    for i in 0..len {
        let Some(item) = queue.nth_back(i) else {
            unreachable!()
        };
        if item.is_barrier() {
            return i;
        }
    }
    len
}

// A copy of the data of all items from this place on.
fn data_behind(
    alloc: Global,
    queue: &HeapCircularBuffer<Item>,
    place: usize,
) -> Result<Bytes, AllocError>
    requires { place ≤ length queue.now.items }
    ensures { IfOk result (λ bytes. bytes.items ≡ data_in (drop place queue.now.items)) }
{
    let mut bytes = Bytes::new(alloc);
    for i in place..queue.len() {
        let Some(item) = queue.get(i) else {
            unreachable!()
        };
        bytes.extend(item.data())?;
    }
    Ok(bytes)
}

// Moves so many of the first items behind all others.
fn turn_round(queue: &mut HeapCircularBuffer<Item>, count: usize)
    requires count { count ≤ length queue.old.items }
    requires within { length queue.old.items ≤ queue.old.capacity }
    ensures { queue.new ≡ buffer (drop count queue.old.items ++ take count queue.old.items) queue.old.capacity }
{
    for _moved in 0..count {
        let Some(item) = queue.pop_front() else {
            unreachable!()
        };
        push(queue, item);
    }
}
