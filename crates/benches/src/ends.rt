// The two ends of a channel.
ghost use Rattle.std.specs.Prelude.{◌≡◌, ◌<◌, ◌≤◌, ◌^◌, [], IfSome};
ghost use Rattle.segment_pool.specs.Pools.{IsPassOf, limits_of, size_of};

use crate::pools;
use crate::pools::small_pool;
use conn_harness::ids_of;
use credit_reader::laws::{happenings_change_one, readers_are_in_order};
use credit_reader::{CREDIT_MAX, Readers, SentKind};
use flow_defs::{BarrierKind, ChannelId, Head};
use input_channel::{Arrival, ArrivalKind, InputChannel, Polled};
use segment_pool::{Pool, PoolPass, SEGMENT_MIN, SEGMENTS_MAX};
use std::alloc::Global;
use std::sync::Wait;
use subpartition::{Filled, Item, Subpartition};

// Does one thing so many times: `open SEGMENTS SIZE` opens a pool and closes it, `claim SEGMENTS` claims a
// segment and gives it back, `queue ITEMS` takes an item and puts it back, `readers CHANNELS` lets the first
// reader send, `inbox 0` accepts a buffer, polls it and takes it back, and `front BUFFERS` looks for the
// front barrier behind so many buffers.
pub fn work<R: Wait>(rt: &R, alloc: Global, what: &str, size: u32, times: u64) -> Option<u64> {
    match what {
        "open" => pools::open(rt, alloc, size, times),
        "claim" => pools::claim(rt, alloc, size, times),
        "queue" => queue(rt, alloc, size, times),
        "readers" => readers(alloc, size, times),
        "inbox" => inbox(rt, alloc, times),
        "front" => front(rt, alloc, size, times),
        _ => None,
    }
}

// Takes the first item of a subpartition with so many items and puts it back, so many times. Returns how
// many bytes were moved.
fn queue<R: Wait>(rt: &R, alloc: Global, items: u32, times: u64) -> Option<u64> {
    if items == 0 || items > SEGMENTS_MAX {
        return None;
    }
    let (pool, mut pass) = small_pool(alloc, items)?;
    let mut queue = Subpartition::new(alloc, SEGMENT_MIN as u32, items).ok()?;
    for _item in 0..items {
        let segment = pool.claim(rt, &mut pass)?;
        if queue.spare() > 0 {
            queue.put(Filled { segment, len: 64 });
        }
    }
    let mut sum: u64 = 0;
    for _turn in 0..times {
        if let Some(Item::Buffer(filled)) = queue.take() {
            sum = sum.wrapping_add(u64::from(filled.len));
            if queue.spare() > 0 {
                queue.put(filled);
            }
        }
    }
    Some(sum)
}

// Requests a channel on which an event stands first, unless that is refused.
fn admit(readers: &mut Readers, id: ChannelId) -> bool {
    happenings_change_one();
    let Ok(()) = readers.request(id, CREDIT_MAX) else {
        return false;
    };
    readers.ready(id, Head::Event, 0);
    true
}

// Lets the first of so many readers send, so many times. Returns the sum of the sequence numbers.
fn readers(alloc: Global, channels: u32, times: u64) -> Option<u64> {
    let Ok(ids) = ids_of(alloc, channels) else {
        return None;
    };
    let mut readers = Readers::new(alloc, ids.as_slice()).ok()?;
    for id in ids.as_slice() {
        if !admit(&mut readers, *id) {
            return None;
        }
    }
    let mut sum: u64 = 0;
    for _turn in 0..times {
        readers_are_in_order(&readers);
        let first = readers.next()?;
        let sequence = readers.sent(first, SentKind::Front, Head::Event, 0);
        sum = sum.wrapping_add(u64::from(sequence));
    }
    Some(sum)
}

// A channel with its two buffers, of 64 bytes, from a pool.
fn channel<R: Wait>(
    rt: &R,
    alloc: Global,
    pool: &Pool,
    pass: &mut PoolPass,
    room: u32,
) -> Option<InputChannel>
    requires pass { IsPassOf pool.now pass.old × (limits_of pool.now ≡ []) }
    requires room { (2 ≤ room) × (room < 2 ^ 31) }
    ensures pass { IsPassOf pool.now pass.new }
    ensures size { IfSome result (λ channel. channel.size ≡ size_of pool.now) }
{
    let first = pool.claim(rt, pass)?;
    let second = pool.claim(rt, pass)?;
    InputChannel::new(alloc, first, second, room).ok()
}

// Accepts a buffer of 64 bytes, polls it, takes it back and tells the credit, so many times. Returns how
// much credit was told.
fn inbox<R: Wait>(rt: &R, alloc: Global, times: u64) -> Option<u64> {
    let (pool, mut pass) = small_pool(alloc, 2)?;
    let mut inbox = channel(rt, alloc, &pool, &mut pass, 10)?;
    let content = [7; SEGMENT_MIN];
    let mut sum: u64 = 0;
    let mut sequence: u32 = 0;
    for _turn in 0..times {
        let arrival = Arrival {
            sequence,
            backlog: 0,
            what: ArrivalKind::Buffer,
        };
        inbox.accept(arrival, &content).ok()?;
        if let Ok(Polled::Buffer(buf)) = inbox.poll(false) {
            inbox.recycle(buf);
        }
        sum = sum.wrapping_add(u64::from(inbox.take_credit()));
        sequence = sequence.wrapping_add(1);
    }
    Some(sum)
}

// Looks for a front barrier behind so many buffers, so many times, and leaves it there. Returns how often
// it was there.
fn front<R: Wait>(rt: &R, alloc: Global, buffers: u32, times: u64) -> Option<u64> {
    if buffers > SEGMENTS_MAX - 2 {
        return None;
    }
    let (pool, mut pass) = small_pool(alloc, buffers + 2)?;
    let mut inbox = channel(rt, alloc, &pool, &mut pass, buffers + 2)?;
    inbox.on_backlog(buffers);
    for _buffer in 0..buffers {
        let segment = pool.claim(rt, &mut pass)?;
        if inbox.wants() > 0 {
            inbox.add_floating(segment);
        }
    }
    inbox.take_credit();
    let content = [7; SEGMENT_MIN];
    for sequence in 0..buffers {
        let arrival = Arrival {
            sequence,
            backlog: 0,
            what: ArrivalKind::Buffer,
        };
        inbox.accept(arrival, &content).ok()?;
    }
    let barrier = Arrival {
        sequence: buffers,
        backlog: 0,
        what: ArrivalKind::Barrier {
            k: 1,
            kind: BarrierKind::Front,
        },
    };
    inbox.accept(barrier, &[]).ok()?;
    let mut sum: u64 = 0;
    for _look in 0..times {
        if let Ok(Polled::Held) = inbox.poll(true) {
            sum = sum.wrapping_add(1);
        }
    }
    Some(sum)
}
