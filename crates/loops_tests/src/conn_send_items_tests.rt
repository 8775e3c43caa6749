// One channel whose items are written to a link of the tests.
ghost use Rattle.std.specs.Prelude.{◌≡◌, ◌<◌, [], length, Some, false};
ghost use Rattle.turn_cell.specs.Passes.{IsPassOf, mine, number, opened_with};
ghost use Rattle.segment_pool.specs.Passes.{out as out_of};
ghost use Rattle.segment_pool.specs.Pools as pools;
ghost use Rattle.segment_pool.specs.Pools.{limits_of, size_of};
ghost use Rattle.subpartition.specs.Sending.{is_finished};
ghost use Rattle.conn_parts.specs.Shares.{AreOf, HavePoolSize};

use conn_parts::{ConnShare, LoopEnd, SharePasses, request_segment};
use conn_send_items::send_items;
use fixtures::{
    finish_in_turn, list_of_one, open_local, open_pool, open_readers, open_stop, open_subpartition,
    put_in_turn,
};
use flow_defs::{Cause, ChannelId, ListOf};
use local_pool::HeldPool;
use outside::{Failed, LinkOut, tell_stop};
use reader_state::take_request;
use segment_pool::{Pool, PoolPass, Segment};
use std::alloc::Global;
use std::process::Abort;
use std::sync::Wait;
use std::test::Fail;
use subpartition::{Filled, Subpartition};
use turn_cell::{Pass, TurnCell};

const CHANNEL: ChannelId = ChannelId {
    edge: 3,
    from: 0,
    to: 2,
};

// A link that fails from one write on.
#[derive(Drop)]
struct FaultyOut {
    bytes: Vec<u8>,
    fails_from: u64,
    writes: u64,
    faults: u64,
    finished: bool,
}

impl LinkOut for FaultyOut {
    type Line = u64;

    ghost line = { λ _. 0 };

    ghost sent = { λ s. Some s.bytes.items };

    ghost finished = { λ s. Some s.finished };

    ghost faults = { λ s. s.faults };

    ghost never_fails = { λ _. ⊥ };

    ghost is_faultless = { λ old new never. absurd never };

    fn write<R: Wait>(&mut self, _rt: &R, bytes: &[u8]) -> Result<usize, Failed> {
        self.writes = self.writes.saturating_add(1);
        let fails = self.writes >= self.fails_from;
        if fails || self.bytes.extend_from_slice(bytes).is_err() {
            self.faults = self.faults.saturating_add(1);
            return Err(Failed);
        }
        Ok(bytes.len())
    }

    fn finish<R: Wait>(&mut self, _rt: &R) {
        self.finished = true;
    }
}

// The segment with these bytes at its front.
fn written(segment: Segment, bytes: &[u8; 5]) -> Segment
    ensures { length result ≡ length segment }
{
    let mut segment = segment;
    segment.bytes_mut()[..5].copy_from_slice(bytes);
    segment
}

// A task puts a buffer of these bytes.
fn put<R: Wait + Abort>(
    rt: &R,
    cell: &TurnCell<Subpartition>,
    pass: &mut Pass<Subpartition>,
    segment: Segment,
    bytes: &[u8; 5],
)
    requires pass { IsPassOf cell.now pass.old }
    requires task { number pass.old ≡ 0 }
    requires open_end { is_finished (mine pass.old) ≡ false }
    requires size { length segment ≡ (opened_with cell.now).size }
    ensures pass { IsPassOf cell.now pass.new × (number pass.new ≡ 0) }
    ensures open_end { is_finished (mine pass.new) ≡ false }
{
    let segment = written(segment, bytes);
    assert!(rt; segment.bytes().len() >= 5);
    let Ok(()) = put_in_turn(rt, cell, pass, Filled { segment, len: 5 }) else {
        panic!(rt; "there is no room")
    };
}

// A task puts the end.
fn end<R: Wait + Abort>(rt: &R, cell: &TurnCell<Subpartition>, pass: &mut Pass<Subpartition>)
    requires pass { IsPassOf cell.now pass.old }
    requires task { number pass.old ≡ 0 }
    requires open_end { is_finished (mine pass.old) ≡ false }
    ensures pass { IsPassOf cell.now pass.new }
{
    assert!(rt; finish_in_turn(rt, cell, pass), "there is no room");
}

// A task puts two buffers and the end.
fn fill<'p, R: Wait + Abort>(
    rt: &R,
    pools: &[TurnCell<HeldPool<'p>>],
    givers: &mut ListOf<Pass<HeldPool<'p>>>,
    cell: &TurnCell<Subpartition>,
    task: Pass<Subpartition>,
)
    requires givers { AreOf pools.now givers.old.items }
    requires some { 0 < length pools.now }
    requires sizes { HavePoolSize 64 pools.now }
    requires task { IsPassOf cell.now task × (number task ≡ 0) × (mine task ≡ []) }
    requires queue_size { (opened_with cell.now).size ≡ 64 }
    ensures givers { AreOf pools.now givers.new.items }
{
    let mut task = task;
    let Some(first) = request_segment(rt, pools, givers, 0) else {
        panic!(rt; "no segment")
    };
    let Some(second) = request_segment(rt, pools, givers, 0) else {
        panic!(rt; "no segment")
    };
    put(rt, cell, &mut task, first, b"\0\0\0\x01a");
    put(rt, cell, &mut task, second, b"\0\0\0\x01b");
    end(rt, cell, &mut task);
}

// A run of the loop over the channel, which has two credits. It may be stopped from the start.
fn run<'p, R: Wait + Abort>(
    rt: &R,
    alloc: Global,
    pool: &'p Pool,
    place: PoolPass,
    out: FaultyOut,
    stopped: bool,
) -> Result<(FaultyOut, Cause), Fail>
    requires place { pools.IsPassOf pool.now place × (out_of place ≡ 0) }
    requires pool { (limits_of pool.now ≡ []) × (size_of pool.now ≡ 64) }
    requires unfinished { out.finished ≡ false }
{
    let (pool_cell, giver) = open_local(rt, alloc, pool, place, 2)?;
    let (cell, task, sender) = open_subpartition(alloc)?;
    let (readers, writer, mut control) = open_readers(alloc, &[CHANNEL])?;
    let (stop, stop_pass, mut other) = open_stop(alloc)?;
    let pools = [pool_cell];
    let mut givers = list_of_one(alloc, giver)?;
    fill(rt, &pools, &mut givers, &cell, task);
    assert!(rt; take_request(rt, &readers, &mut control, CHANNEL, 2).is_ok());
    if stopped {
        tell_stop(rt, &stop, &mut other, Cause::Memory);
    }
    let takers = list_of_one(alloc, sender)?;
    let share = ConnShare {
        channels: &[CHANNEL],
        size: 64,
        readers: &readers,
        subpartitions: &[cell],
        inputs: &[],
        pools: &pools,
        stop: &stop,
        passes: SharePasses {
            readers: Some(writer),
            subpartitions: takers,
            inputs: ListOf::new(alloc),
            pools: givers,
            stop: stop_pass,
        },
    };
    let ended = send_items(rt, alloc, out, share);
    let LoopEnd {
        half,
        passes: _passes,
        cause,
    } = ended;
    Ok((half, cause))
}

// The frames of the two buffers and of the end, with sequence numbers 0, 1, 2 and backlogs 1, 0, 0, and
// the closing frame.
static FRAMES: [u8; 136] = [
    0, 0, 0, 44, 0xBA, 0xDC, 0x0F, 0xFE, 0, 0, 0, 0, 3, 0, 0, 0, 0, 0, 0, 0, 2, 0, 0, 0, 0, 0, 0,
    0, 0, 0, 0, 0, 1, 0, 0, 0, 0, 0, 5, 0, 0, 0, 1, b'a', 0, 0, 0, 44, 0xBA, 0xDC, 0x0F, 0xFE, 0,
    0, 0, 0, 3, 0, 0, 0, 0, 0, 0, 0, 2, 0, 0, 0, 0, 0, 0, 0, 1, 0, 0, 0, 0, 0, 0, 0, 0, 0, 5, 0, 0,
    0, 1, b'b', 0, 0, 0, 39, 0xBA, 0xDC, 0x0F, 0xFE, 0, 0, 0, 0, 3, 0, 0, 0, 0, 0, 0, 0, 2, 0, 0,
    0, 0, 0, 0, 0, 2, 0, 0, 0, 0, 3, 0, 0, 0, 0, 0, 0, 0, 0, 9, 0xBA, 0xDC, 0x0F, 0xFE, 5,
];

#[test]
fn a_channel_is_written_to_its_end(rt: HostRuntime) -> Result<(), Fail> {
    // From which write on the link fails, whether a fault was met before, the bytes that are written and
    // the cause.
    let rows = [
        (u64::MAX, false, FRAMES.as_slice(), Cause::Done),
        (2, false, &FRAMES[..127], Cause::Link),
        (1, false, &[], Cause::Link),
        (u64::MAX, true, &FRAMES[127..], Cause::Stopped),
    ];
    for (fails_from, stopped, bytes, cause) in rows {
        let (pool, _places, place) = open_pool(rt.alloc(), 2)?;
        let out = FaultyOut {
            bytes: Vec::new(rt.alloc()),
            fails_from,
            writes: 0,
            faults: 0,
            finished: false,
        };
        let (out, met) = run(&rt, rt.alloc(), &pool, place, out, stopped)?;
        assert_eq!(rt; out.bytes.as_slice(), bytes);
        assert_eq!(rt; met, cause);
        assert!(rt; out.finished);
    }
    Ok(())
}
