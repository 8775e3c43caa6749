// Buffers that a task fills and a sender takes, and their segments, which go back to their pool.
ghost use Rattle.std.specs.Prelude.{◌≡◌, ◌+◌, ◌<◌, [], length};
ghost use Rattle.segment_pool.specs.Passes.{out, number};
ghost use Rattle.segment_pool.specs.Pools.{IsPassOf, limits_of, size_of};
ghost use Rattle.subpartition.specs.Queues.{empty_queue};

use crate::one_pass::{claim, close};
use crate::subpartition_turns::{Sent, send_in_threads};
use fixtures::open_pool;
use flow_defs::{BarrierKind, Head};
use record_spans::write_span;
use segment_pool::{Pool, PoolPass, Segment};
use std::alloc::{AllocError, Global};
use std::process::Abort;
use std::sync::Wait;
use std::test::Fail;
use std::thread::Threads;
use subpartition::laws::calls_add_entries;
use subpartition::{Filled, Item, Subpartition};
use turn_cell::TurnCell;

// A record of 100 bytes.
const RECORD: &str =
    "To be, or not to be, that is the question: whether 'tis nobler in the mind to suffer the slings and ";

#[test]
fn a_record_of_100_bytes_goes_in_two_buffers(rt: HostRuntime) -> Result<(), Fail> {
    let mut queue = Subpartition::new(rt.alloc(), 64, 4)?;
    let (pool, passes, mut pass) = open_pool(rt.alloc(), 2)?;
    let first = claim(&rt, &pool, &mut pass);
    let second = claim(&rt, &pool, &mut pass);
    let (first, second) = send_record(&rt, &mut queue, first, second);
    give(&rt, &pool, &mut pass, first);
    give(&rt, &pool, &mut pass, second);
    close(&rt, pool, passes, pass, 2);
    Ok(())
}

#[test]
fn a_buffer_goes_from_thread_to_thread(rt: HostRuntime) -> Result<(), Fail> {
    let queue = Subpartition::new(rt.alloc(), 64, 1)?;
    let (pool, passes, mut pass) = open_pool(rt.alloc(), 2)?;
    let sent = send_buffer(&rt, rt.alloc(), queue, &pool, &mut pass);
    close(&rt, pool, passes, pass, 2);
    sent?;
    Ok(())
}

#[test]
fn a_told_size_is_kept(rt: HostRuntime) -> Result<(), Fail> {
    let mut queue = Subpartition::new(rt.alloc(), 128, 1)?;
    assert_eq!(rt; queue.fill_size(), 128);
    queue.set_fill_size(64);
    queue.finish();
    assert_eq!(rt; queue.fill_size(), 64);
    assert_eq!(rt; queue.size(), 128);
    assert_eq!(rt; queue.spare(), 0);
    assert!(rt; matches!(queue.take(), Some(Item::End)));
    assert_eq!(rt; queue.spare(), 1);
    Ok(())
}

// Two buffers and a barrier behind them are put and taken, and both segments come back.
fn send_record<R: Abort>(
    rt: &R,
    queue: &mut Subpartition,
    first: Segment,
    second: Segment,
) -> (Segment, Segment)
    requires queue { queue.old ≡ empty_queue 64 4 }
    requires segments { (length first ≡ 64) × (length second ≡ 64) }
    ensures { (length result.0 ≡ 64) × (length result.1 ≡ 64) }
{
    let record = RECORD.as_bytes();
    let first = fill(rt, record, 0, first, 64);
    let second = fill(rt, record, 64, second, 40);
    assert_eq!(rt; queue.head(), Head::Nothing);
    queue.put(first);
    assert_eq!(rt; queue.head(), Head::Buffer);
    queue.put(second);
    queue.put_inline(1);
    assert_eq!(rt; queue.spare(), 1);
    assert_eq!(rt; queue.backlog(), 2);
    let first = take_buffer(rt, queue, &[0, 0, 0, 100], &record[..60]);
    assert_eq!(rt; queue.head(), Head::Buffer);
    let second = take_buffer(rt, queue, &[], &record[60..]);
    assert_eq!(rt; queue.head(), Head::Event);
    assert_eq!(rt; queue.backlog(), 0);
    let barrier = queue.take();
    assert!(rt;
        matches!(
            &barrier,
            Some(Item::Barrier {
                k: 1,
                kind: BarrierKind::Inline
            })
        )
    );
    assert_eq!(rt; queue.head(), Head::Nothing);
    assert!(rt; queue.take().is_none());
    (first, second)
}

// A buffer with the encoding of the record from there on, of which so many bytes fit.
fn fill<R: Abort>(rt: &R, record: &[u8], done: usize, segment: Segment, len: usize) -> Filled {
    let mut segment = segment;
    assert!(rt; record.len() == 100 && done <= 104);
    let count = write_span(record, done, segment.bytes_mut());
    assert_eq!(rt; count, len);
    assert!(rt; 0 < len && len <= 64 && len <= segment.bytes().len());
    Filled {
        segment,
        len: len as u32,
    }
}

// Takes a buffer, which has these bytes, and returns its segment.
fn take_buffer<R: Abort>(rt: &R, queue: &mut Subpartition, head: &[u8], rest: &[u8]) -> Segment
    ensures { length result ≡ 64 }
{
    let Some(Item::Buffer(filled)) = queue.take() else {
        panic!(rt; "no buffer stands first")
    };
    assert!(rt; filled.bytes().starts_with(head) && filled.bytes().ends_with(rest));
    assert_eq!(rt; filled.bytes().len(), head.len() + rest.len());
    let Filled { segment, .. } = filled;
    assert_eq!(rt; segment.bytes().len(), 64);
    segment
}

// A task puts three bytes and a sender takes, each in a thread of its own.
fn send_buffer<R: Threads + Wait + Abort + Sync>(
    rt: &R,
    alloc: Global,
    queue: Subpartition,
    pool: &Pool,
    pass: &mut PoolPass,
) -> Result<(), AllocError>
    requires queue { queue ≡ empty_queue 64 1 }
    requires pass { IsPassOf pool.now pass.old }
    requires pool { (limits_of pool.now ≡ []) × (size_of pool.now ≡ 64) }
    ensures pass { IsPassOf pool.now pass.new × (number pass.new ≡ number pass.old) }
{
    calls_add_entries();
    let Ok((cell, passes)) = TurnCell::new(alloc, queue, 2) else {
        return Err(AllocError);
    };
    let mut segment = claim(rt, pool, pass);
    segment.bytes_mut()[..3].copy_from_slice(b"abc");
    let filled = Filled { segment, len: 3 };
    let Ok(Sent { item, mut left }) = send_in_threads(rt, cell, passes, filled) else {
        panic!(rt; "there is room for a buffer")
    };
    let Some(Item::Buffer(taken)) = item.or_else(|| left.take()) else {
        panic!(rt; "the buffer was put")
    };
    assert!(rt; taken.bytes() == b"abc".as_slice());
    assert_eq!(rt; left.spare(), 1);
    let Filled { segment, .. } = taken;
    assert_eq!(rt; segment.bytes().len(), 64);
    give(rt, pool, pass, segment);
    Ok(())
}

// Gives a segment back.
fn give<R: Wait>(rt: &R, pool: &Pool, pass: &mut PoolPass, segment: Segment)
    requires pass { IsPassOf pool.now pass.old }
    requires out { 0 < out pass.old }
    requires size { length segment ≡ size_of pool.now }
    ensures pass { IsPassOf pool.now pass.new × (number pass.new ≡ number pass.old) }
    ensures out { out pass.old ≡ out pass.new + 1 }
{
    pool.give(rt, pass, segment);
}
