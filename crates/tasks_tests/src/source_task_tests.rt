// The second source of a job with two sources and one task that counts, over a partition of one channel and a
// small pool, with one thread.
ghost use Rattle.std.specs.Prelude.{◌≡◌, ◌≤◌, [], IfOk, IfSome};
ghost use Rattle.turn_cell.specs.Passes.{IsPassOf, number, opened_with};
ghost use Rattle.flow_defs.specs.Jobs.{IsJob, tasks};
ghost use Rattle.checkpoint_laws.specs.Chapters.{task_at};
ghost use Rattle.segment_pool.specs.Pools.{size_of};
ghost use Rattle.local_pool.specs.Helds.{pool_of};
ghost use Rattle.snapshot_channel.specs.Passes.{IsCollecting, IsFresh, opening, opening_of, sent_by, task_of};
ghost use Rattle.record_writer.specs.Partitions.{IsPartitionOf};
ghost use Rattle.task_output.specs.Acking.{HasPasses, IsLent};

use crate::lent::{Point, shared_last, start_at};
use crate::two_sources::counting_job;
use fixtures::{list_of_one, open_local, open_pool, open_stop, open_subpartition, take_in_turn};
use flow_defs::{BarrierKind, Bytes, Cause, Job, ListOf, TaskId};
use job_start::Start;
use local_pool::HeldPool;
use outside::{MemorySource, Stored};
use record_writer::{Partition, PartitionPasses};
use snapshot_channel::{CollectingPass, Opened, SnapshotChannel, TaskPass};
use source_task::run_source;
use std::alloc::{AllocError, Global};
use std::process::Abort;
use std::sync::Wait;
use std::test::Fail;
use subpartition::{Item, Subpartition};
use task_output::{Acks, World, base_of};
use turn_cell::{Pass, TurnCell};

// A channel of snapshots, and the passes of the collecting worker and the source.
#[derive(Drop)]
struct Ends {
    channel: SnapshotChannel,
    collecting: CollectingPass,
    of_source: TaskPass,
}

fn open_ends(alloc: Global, job: &Job, start: &Start, every: Option<u64>) -> Result<Ends, Fail>
    requires is_job { IsJob job.now }
    requires counting { (job.now.stages.items ≡ []) × (tasks job.now 0 ≡ 2) × (tasks job.now 1 ≡ 1) }
    ensures opening { IfOk result (λ ends. opening_of ends.channel ≡ opening job.now start.now every) }
    ensures collecting { IfOk result (λ ends. IsCollecting ends.channel ends.collecting) }
    ensures source { IfOk result (λ ends. IsFresh ends.channel ends.of_source × (task_of ends.of_source ≡ task_at 0 1)) }
{
    let Opened {
        channel,
        collecting,
        mut passes,
    } = SnapshotChannel::open(alloc, job, start, every)?;
    let Some(_of_count) = passes.pop() else {
        return Err("there is no pass".into());
    };
    let Some(of_source) = passes.pop() else {
        return Err("there is one pass".into());
    };
    Ok(Ends {
        channel,
        collecting,
        of_source,
    })
}

// What a source reads, with the reads that fail, from where it goes on, and what it is to send: a buffer of these
// bytes, if there are some, a barrier and a snapshot for each of these numbers, and the end. It is at its end in
// each snapshot, behind so many lines and so many records.
#[derive(Clone, Copy)]
struct Case<'a> {
    input: &'a [u8],
    fails: &'a [u64],
    from: Option<Point>,
    every: Option<u64>,
    stored: Option<Stored>,
    buffer: &'a [u8],
    numbers: &'a [u64],
    lines: u64,
    emitted: u64,
}

// The input of a case, which gives at most three bytes in a read.
fn input_of(alloc: Global, case: Case<'_>) -> Result<MemorySource, AllocError> {
    let mut fails = ListOf::new(alloc);
    fails.extend(case.fails)?;
    Ok(MemorySource::new(Bytes::of(alloc, case.input)?, 3, fails))
}

// What stands in a subpartition is what the case names: its buffer, if it has bytes, as many barriers as there are
// numbers, counted from 1, and the end.
fn has_sent<R: Wait + Abort>(
    rt: &R,
    cell: &TurnCell<Subpartition>,
    sender: Pass<Subpartition>,
    case: Case<'_>,
)
    requires { IsPassOf cell.now sender × (number sender ≡ 1) }
{
    let mut sender = sender;
    if !case.buffer.is_empty() {
        match take_in_turn(rt, cell, &mut sender) {
            Some(Item::Buffer(filled)) => assert_eq!(rt; filled.bytes(), case.buffer),
            _ => panic!(rt; "no buffer"),
        }
    }
    'barriers: for number in 1..=case.numbers.len() as u64 {
        match take_in_turn(rt, cell, &mut sender) {
            Some(Item::Barrier { k, kind }) => {
                assert_eq!(rt; (k, kind), (number, BarrierKind::Inline));
            }
            _ => panic!(rt; "no barrier"),
        }
    }
    assert!(rt; matches!(take_in_turn(rt, cell, &mut sender), Some(Item::End)));
    assert!(rt; take_in_turn(rt, cell, &mut sender).is_none());
}

// The snapshots on the channel are those of the case's numbers.
fn has_told<R: Wait + Abort>(
    rt: &R,
    channel: &SnapshotChannel,
    collecting: CollectingPass,
    case: Case<'_>,
)
    requires { IsCollecting channel.now collecting }
{
    let mut collecting = collecting;
    'snapshots: for number in case.numbers {
        let Some(got) = channel.receive(rt, &mut collecting) else {
            panic!(rt; "no snapshot")
        };
        assert_eq!(rt; got.task, TaskId { stage: 0, index: 1 });
        assert_eq!(rt;
            (got.number, got.offset, got.ended, got.emitted),
            (*number, case.lines, true, case.emitted)
        );
    }
    assert!(rt; channel.receive(rt, &mut collecting).is_none());
}

// Runs a source, and answers why it ended.
fn source<'a, 'p, R: Wait>(
    rt: &R,
    alloc: Global,
    job: &'a Job,
    input: MemorySource,
    start: &Start,
    every: Option<u64>,
    world: World<'a, Partition<'a, 'p>>,
) -> Cause
    requires partition { IsPartitionOf job.now 0 1 world.partition }
    requires lent { IsLent job.now 0 1 start.now every world }
{
    let mut input = input;
    run_source(rt, alloc, job, &mut input, 1, start, every, world).cause
}

// Runs a source, sees what it has sent, and answers why it ended.
fn source_sends<R: Wait + Abort>(rt: &R, alloc: Global, case: Case<'_>) -> Result<Cause, Fail>
    requires interval { IfSome case.every (λ n. 1 ≤ n) }
{
    let job = counting_job(alloc)?;
    let start = start_at(alloc, &job, case.from)?;
    let Ends {
        channel,
        collecting,
        of_source,
    } = open_ends(alloc, &job, &start, case.every)?;
    let (last_image, last_pass) = shared_last(rt, alloc, case.stored)?;
    let acks = Acks {
        snapshots: &channel,
        pass: of_source,
        last_image: &last_image,
        last_pass,
        base: base_of(&start),
        sent: 0,
    };
    let cause = source_pooled(rt, alloc, &job, acks, &start, case)?;
    has_told(rt, &channel, collecting, case);
    Ok(cause)
}

// It fills segments of a pool of its own.
fn source_pooled<'a, R: Wait + Abort>(
    rt: &R,
    alloc: Global,
    job: &'a Job,
    acks: Acks<'a>,
    start: &Start,
    case: Case<'_>,
) -> Result<Cause, Fail>
    requires job { IsJob job.now × (job.now.stages.items ≡ []) × (tasks job.now 0 ≡ 2) × (tasks job.now 1 ≡ 1) }
    requires passes { HasPasses acks × (sent_by acks.pass ≡ []) × (task_of acks.pass ≡ task_at 0 1) }
    requires opening { opening_of acks.snapshots.now ≡ opening job.now start.now case.every }
    requires interval { IfSome case.every (λ n. 1 ≤ n) }
{
    let (pool, _passes, place) = open_pool(alloc, 4)?;
    let (pool_cell, lender) = open_local(rt, alloc, &pool, place, 4)?;
    source_over(rt, alloc, job, acks, &pool_cell, lender, start, case)
}

// It sends on a new subpartition, and what stands in it is seen.
fn source_over<'a, 'p, R: Wait + Abort>(
    rt: &R,
    alloc: Global,
    job: &'a Job,
    acks: Acks<'a>,
    pool: &'a TurnCell<HeldPool<'p>>,
    lender: Pass<HeldPool<'p>>,
    start: &Start,
    case: Case<'_>,
) -> Result<Cause, Fail>
    requires job { IsJob job.now × (job.now.stages.items ≡ []) × (tasks job.now 0 ≡ 2) × (tasks job.now 1 ≡ 1) }
    requires passes { HasPasses acks × (sent_by acks.pass ≡ []) × (task_of acks.pass ≡ task_at 0 1) }
    requires opening { opening_of acks.snapshots.now ≡ opening job.now start.now case.every }
    requires pool { IsPassOf pool.now lender × (size_of (pool_of (opened_with pool.now)) ≡ 64) }
    requires interval { IfSome case.every (λ n. 1 ≤ n) }
{
    let (cell, task, sender) = open_subpartition(alloc)?;
    let subpartitions = list_of_one(alloc, task)?;
    let (stop, stop_pass, _other) = open_stop(alloc)?;
    let input = input_of(alloc, case)?;
    let cells = [cell];
    let partition = Partition {
        subpartitions: &cells,
        first: 0,
        stride: 1,
        pool,
        size: 64,
        passes: PartitionPasses {
            subpartitions,
            pool: lender,
        },
    };
    let world = World {
        partition,
        acks,
        stop: &stop,
        stop_pass,
    };
    let cause = source(rt, alloc, job, input, start, case.every, world);
    has_sent(rt, &cells[0], sender, case);
    Ok(cause)
}

#[test]
fn a_source_without_an_interval_sends_one_snapshot(rt: HostRuntime) -> Result<(), Fail> {
    let case = Case {
        input: b"a\nb\na\n",
        fails: &[],
        from: None,
        every: None,
        stored: None,
        buffer: b"\0\0\0\x01a\0\0\0\x01b\0\0\0\x01a",
        numbers: &[1],
        lines: 3,
        emitted: 3,
    };
    let cause = source_sends(&rt, rt.alloc(), case)?;
    assert_eq!(rt; cause, Cause::Done);
    Ok(())
}

#[test]
fn a_source_with_an_interval_waits_for_each_image(rt: HostRuntime) -> Result<(), Fail> {
    let case = Case {
        input: b"a\n",
        fails: &[],
        from: None,
        every: Some(2),
        stored: Some(Stored {
            number: 1,
            all_ended: true,
        }),
        buffer: b"\0\0\0\x01a",
        numbers: &[1, 2],
        lines: 1,
        emitted: 1,
    };
    let cause = source_sends(&rt, rt.alloc(), case)?;
    assert_eq!(rt; cause, Cause::Done);
    Ok(())
}

// Behind checkpoint 6 the source had read two lines.
const BEHIND_TWO_LINES: Point = Point {
    number: 6,
    offsets: &[1, 2],
    ended: &[false, false],
    emitted: &[3, 5],
};

#[test]
fn a_source_goes_on_behind_the_lines_read_before(rt: HostRuntime) -> Result<(), Fail> {
    let case = Case {
        input: b"a\nb\nc\n",
        fails: &[],
        from: Some(BEHIND_TWO_LINES),
        every: Some(2),
        stored: Some(Stored {
            number: 7,
            all_ended: true,
        }),
        buffer: b"\0\0\0\x01c",
        numbers: &[7, 8],
        lines: 3,
        emitted: 6,
    };
    let cause = source_sends(&rt, rt.alloc(), case)?;
    assert_eq!(rt; cause, Cause::Done);
    Ok(())
}

#[test]
fn a_source_that_goes_on_without_an_interval_sends_one_snapshot(
    rt: HostRuntime,
) -> Result<(), Fail> {
    let case = Case {
        input: b"a\nb\nc\nd\n",
        fails: &[],
        from: Some(BEHIND_TWO_LINES),
        every: None,
        stored: None,
        buffer: b"\0\0\0\x01c\0\0\0\x01d",
        numbers: &[7],
        lines: 4,
        emitted: 7,
    };
    let cause = source_sends(&rt, rt.alloc(), case)?;
    assert_eq!(rt; cause, Cause::Done);
    Ok(())
}

// Behind checkpoint 6 the source was at its end, and the other one was not.
const AT_ITS_END: Point = Point {
    number: 6,
    offsets: &[1, 3],
    ended: &[false, true],
    emitted: &[3, 5],
};

// Its first read would fail.
#[test]
fn a_source_that_was_at_its_end_reads_nothing(rt: HostRuntime) -> Result<(), Fail> {
    let case = Case {
        input: b"a\nb\nc\nd\n",
        fails: &[1],
        from: Some(AT_ITS_END),
        every: Some(2),
        stored: Some(Stored {
            number: 7,
            all_ended: true,
        }),
        buffer: b"",
        numbers: &[7, 8],
        lines: 3,
        emitted: 5,
    };
    let cause = source_sends(&rt, rt.alloc(), case)?;
    assert_eq!(rt; cause, Cause::Done);
    Ok(())
}

// Behind checkpoint 6 both sources were at their ends.
const ALL_AT_THEIR_ENDS: Point = Point {
    number: 6,
    offsets: &[1, 3],
    ended: &[true, true],
    emitted: &[3, 5],
};

#[test]
fn where_all_sources_were_at_their_ends_the_first_checkpoint_is_the_last(
    rt: HostRuntime,
) -> Result<(), Fail> {
    let case = Case {
        input: b"",
        fails: &[1],
        from: Some(ALL_AT_THEIR_ENDS),
        every: Some(2),
        stored: None,
        buffer: b"",
        numbers: &[7],
        lines: 3,
        emitted: 5,
    };
    let cause = source_sends(&rt, rt.alloc(), case)?;
    assert_eq!(rt; cause, Cause::Done);
    Ok(())
}
