// What puts buffers on all channels.
ghost use Rattle.std.specs.Prelude.{◌<◌, ◌≤◌, length};
ghost use Rattle.turn_cell.specs.Passes.{IsPassOf};
ghost use Rattle.conn_parts.specs.Shares.{AreOf};
ghost use Rattle.conn_harness.specs.Ends.{MayPut};

use crate::idle::Idle;
use crate::outlet::Outlet;
use conn_parts::request_segment;
use flow_defs::ListOf;
use local_pool::HeldPool;
use outside::StopState;
use segment_pool::Segment;
use std::collections::VecDeque;
use std::sync::Wait;
use std::thread::Parker;
use std::time::Duration;
use subpartition::Filled;
use turn_cell::{Pass, TurnCell};

/// What a source does: it waits for so many rounds of 50 milliseconds, and then puts so many buffers of
/// so many bytes on each channel, and its end.
#[derive(Clone, Copy, Drop)]
pub struct Work {
    pub waits: u64,
    pub buffers: u64,
    /// At most the length of a segment; a buffer has 5 bytes at least.
    pub len: u32,
}

/// A channel, how many buffers were put on it, and one that there was no room for yet.
#[derive(Drop)]
pub struct Lane<'a> {
    pub outlet: Outlet<'a>,
    /// The place of the local pool of its buffers.
    pub pool: usize,
    pub put: u64,
    pub waiting: Option<Filled>,
}

/// The ends of all channels on which a source puts, and the local pools of their buffers.
#[derive(Drop)]
pub struct Source<'e, 'a, 'p> {
    pub lanes: VecDeque<Lane<'e>>,
    pub pools: &'a [TurnCell<HeldPool<'p>>],
    pub passes: ListOf<Pass<HeldPool<'p>>>,
    pub stop: &'a TurnCell<StopState>,
    pub stop_pass: Pass<StopState>,
    pub work: Work,
}

// What a round with one channel came to.
enum Step<'a> {
    Put(Lane<'a>),
    Nothing(Lane<'a>),
    Finished,
}

/// The letter in a channel's buffer with this number.
pub fn letter(number: u64) -> u8 {
    b'a' + (number % 26) as u8
}

// The buffer with this number: a record of its letter, and behind it what was there.
fn filled(segment: Segment, number: u64, len: u32) -> Filled {
    let mut segment = segment;
    let bytes = segment.bytes_mut();
    bytes[..5].copy_from_slice(&[0, 0, 0, 1, letter(number)]);
    let most = bytes.len() as u32;
    Filled {
        segment,
        len: len.max(5).min(most),
    }
}

// A segment of the local pool at a place, where there is one.
fn segment_at<'p, R: Wait>(
    rt: &R,
    pools: &[TurnCell<HeldPool<'p>>],
    passes: &mut ListOf<Pass<HeldPool<'p>>>,
    place: usize,
) -> Option<Segment>
    requires passes { AreOf pools.now passes.old.items }
    ensures { AreOf pools.now passes.new.items }
{
    if place < pools.len() {
        request_segment(rt, pools, passes, place)
    } else {
        None
    }
}

// Puts this buffer on a channel, or keeps it there where there is no room.
fn put_on<'a, R: Wait>(
    rt: &R,
    outlet: Outlet<'a>,
    pool: usize,
    put: u64,
    next: Filled,
) -> Step<'a> {
    let (outlet, done) = outlet.put(rt, next);
    match done {
        Ok(()) => Step::Put(Lane {
            outlet,
            pool,
            put: put.wrapping_add(1),
            waiting: None,
        }),
        Err(back) => Step::Nothing(Lane {
            outlet,
            pool,
            put,
            waiting: Some(back),
        }),
    }
}

// Puts a channel's next buffer, or its end.
fn put_next<'a, 'p, R: Wait>(
    rt: &R,
    lane: Lane<'a>,
    pools: &[TurnCell<HeldPool<'p>>],
    passes: &mut ListOf<Pass<HeldPool<'p>>>,
    work: Work,
) -> Step<'a>
    requires passes { AreOf pools.now passes.old.items }
    ensures { AreOf pools.now passes.new.items }
{
    let Lane {
        outlet,
        pool,
        put,
        waiting,
    } = lane;
    if put >= work.buffers {
        return match outlet.finish(rt) {
            None => Step::Finished,
            Some(outlet) => Step::Nothing(Lane {
                outlet,
                pool,
                put,
                waiting,
            }),
        };
    }
    if let Some(next) = waiting {
        return put_on(rt, outlet, pool, put, next);
    }
    match segment_at(rt, pools, passes, pool) {
        Some(segment) => put_on(rt, outlet, pool, put, filled(segment, put, work.len)),
        None => Step::Nothing(Lane {
            outlet,
            pool,
            put,
            waiting: None,
        }),
    }
}

// Waits for so many rounds of 50 milliseconds.
fn rest<R: Wait>(rt: &R, rounds: u64) {
    let parker = Parker::new();
    for _round in 0..rounds {
        parker.park_timeout(rt, Duration::from_millis(50));
    }
}

/// Puts buffers and the end on each channel, one channel after another, until all are finished or the stop
/// cell has an entry. Answers how many buffers it put.
pub fn put_all<'e, 'a, 'p, R: Wait>(rt: &R, source: Source<'e, 'a, 'p>) -> u64
    requires { MayPut source }
{
    let Source {
        mut lanes,
        pools,
        mut passes,
        stop,
        mut stop_pass,
        work,
    } = source;
    rest(rt, work.waits);
    let mut count: u64 = 0;
    let mut idle = Idle::new();
    for _round in rt.forever() {
        let Some(lane) = lanes.pop_front() else {
            return count;
        };
        let lane = match put_next(rt, lane, pools, &mut passes, work) {
            Step::Put(lane) => {
                count = count.wrapping_add(1);
                idle.found();
                lane
            }
            Step::Nothing(lane) => {
                if idle.missed(rt, lanes.len(), stop, &mut stop_pass) {
                    return count;
                }
                lane
            }
            Step::Finished => continue,
        };
        if lanes.push_back(lane).is_err() {
            return count;
        }
    }
    unreachable!()
}
