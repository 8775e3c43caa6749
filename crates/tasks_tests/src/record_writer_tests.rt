// Writers over cells and a small pool, with one thread.
ghost use Rattle.std.specs.Prelude.{◌≡◌, ℕ, ◌≤◌, IfOk, OnOk};
ghost use Rattle.turn_cell.specs.Passes.{IsPassOf, number, opened_with};
ghost use Rattle.flow_defs.specs.declared.job.Exchange.TheVariants.{Forward, Hash, Rebalance};
ghost use Rattle.flow_defs.specs.Jobs.{IsJob, last_edge, tasks, exchange as exchange_on};
ghost use Rattle.segment_pool.specs.Pools.{size_of};
ghost use Rattle.local_pool.specs.Helds.{pool_of};
ghost use Rattle.record_writer.specs.Partitions.{IsPartitionOf};
ghost use Rattle.record_writer.specs.Writers.{IsOpen, IsSame, IsNextBarrier};

use fixtures::{
    list_of_one, list_of_two, open_local, open_pool, open_stop, open_subpartition, take_in_turn,
};
use flow_defs::{
    AggKind, BarrierKind, Bytes, Cause, Exchange, Job, ListOf, RECORD_MAX, Stage, StageKind,
};
use local_pool::HeldPool;
use outside::{StopState, tell_stop};
use record_writer::{Partition, PartitionPasses, RecordWriter, WriterStopped};
use std::alloc::{AllocError, Global};
use std::process::Abort;
use std::sync::Wait;
use std::test::Fail;
use subpartition::{Item, Subpartition};
use turn_cell::{Pass, TurnCell};

const LONG: &[u8] =
    b"To be, or not to be, that is the question: whether 'tis nobler in the mind to suffer the slings and ";

const SHORT: &[u8] = b"arrows";

const LAST: &[u8] =
    b"of outrageous fortune, or to take arms against a sea of troubles and by opposing end them.";

// A job of two sources, a stage of two tasks into which records come by this exchange, and two tasks of the
// aggregate.
fn job_of(alloc: Global, exchange: Exchange) -> Result<Job, AllocError>
    ensures job { IfOk result (λ job. IsJob job × (last_edge job ≡ 1)) }
    ensures edges { IfOk result (λ job. (exchange_on job 0 ≡ exchange) × (exchange_on job 1 ≡ Hash)) }
    ensures tasks { IfOk result (λ job. (tasks job 0 ≡ 2) × (tasks job 1 ≡ 2) × (tasks job 2 ≡ 2)) }
{
    let mut sources = ListOf::new(alloc);
    sources.push(Bytes::new(alloc))?;
    sources.push(Bytes::new(alloc))?;
    let mut stages = ListOf::new(alloc);
    stages.push(Stage {
        kind: StageKind::Upper,
        arg: Bytes::new(alloc),
        tasks: 2,
        exchange,
    })?;
    Ok(Job {
        sources,
        stages,
        agg: AggKind::Count,
        agg_tasks: 2,
        text: Bytes::new(alloc),
    })
}

// Takes these buffers out of a subpartition.
fn take_buffers<R: Wait + Abort>(
    rt: &R,
    cell: &TurnCell<Subpartition>,
    sender: &mut Pass<Subpartition>,
    buffers: &[&[u8]],
)
    requires { IsPassOf cell.now sender.old × (number sender.old ≡ 1) }
    ensures { IsPassOf cell.now sender.new × (number sender.new ≡ 1) }
{
    for bytes in buffers {
        match take_in_turn(rt, cell, sender) {
            Some(Item::Buffer(filled)) => assert_eq!(rt; filled.bytes(), *bytes),
            _ => panic!(rt; "no buffer"),
        }
    }
}

// Takes what stands in a subpartition: the buffers of each stretch, an inline barrier between two of them, and
// then the end, if it was put.
fn takes<R: Wait + Abort>(
    rt: &R,
    cell: &TurnCell<Subpartition>,
    sender: Pass<Subpartition>,
    stretches: &[&[&[u8]]],
    ended: bool,
)
    requires { IsPassOf cell.now sender × (number sender ≡ 1) }
{
    assert!(rt; !stretches.is_empty());
    let mut sender = sender;
    take_buffers(rt, cell, &mut sender, stretches[0]);
    for number in 1..stretches.len() {
        match take_in_turn(rt, cell, &mut sender) {
            Some(
                Item::Barrier {
                    k,
                    kind: BarrierKind::Inline,
                },
            ) => assert_eq!(rt; k, number as u64),
            _ => panic!(rt; "no barrier"),
        }
        take_buffers(rt, cell, &mut sender, stretches[number]);
    }
    if ended {
        assert!(rt; matches!(take_in_turn(rt, cell, &mut sender), Some(Item::End)));
    }
    assert!(rt; take_in_turn(rt, cell, &mut sender).is_none());
}

// How many segments a pool has lent.
fn lent<'p, R: Wait>(rt: &R, cell: &TurnCell<HeldPool<'p>>, pass: Pass<HeldPool<'p>>) -> u32
    requires { IsPassOf cell.now pass }
{
    let (held, turn) = cell.enter_owned(rt, pass);
    let lent = held.lent();
    turn.leave_as_is(held);
    lent
}

// What a writer is made of.
#[derive(Drop)]
struct Task<'a, 'p> {
    job: &'a Job,
    edge: u32,
    index: u32,
    partition: Partition<'a, 'p>,
    stop: &'a TurnCell<StopState>,
    stop_pass: Pass<StopState>,
}

// Emits these records.
fn emit_all<'a, 'p, R: Wait + Abort>(
    rt: &R,
    writer: &mut RecordWriter<'a, 'p>,
    records: &[&[u8]],
) -> Result<(), WriterStopped>
    requires { IsOpen writer.old }
    ensures same { IsSame writer.old writer.new }
    ensures is_open { OnOk result (IsOpen writer.new) }
    ensures next { (k : ℕ) → IsNextBarrier writer.old k → IsNextBarrier writer.new k }
{
    for line in records {
        assert!(rt; line.len() <= RECORD_MAX);
        match writer.emit(rt, line) {
            Ok(()) => {}
            Err(stopped) => return Err(stopped),
        }
    }
    Ok(())
}

// Emits the records of each stretch, puts a barrier between two of them, and finishes where it is asked to.
fn write<'a, 'p, R: Wait + Abort>(
    rt: &R,
    writer: &mut RecordWriter<'a, 'p>,
    stretches: &[&[&[u8]]],
    finish: bool,
) -> Result<(), WriterStopped>
    requires is_open { IsOpen writer.old }
    requires next { IsNextBarrier writer.old 1 }
    ensures { IsSame writer.old writer.new }
{
    assert!(rt; !stretches.is_empty());
    emit_all(rt, writer, stretches[0])?;
    for number in 1..stretches.len() {
        writer.mark(rt, number as u64)?;
        emit_all(rt, writer, stretches[number])?;
    }
    if finish {
        return writer.finish(rt);
    }
    Ok(())
}

// Makes a writer, writes these stretches, finishes where it is asked to, and ends the writer. Answers whether
// it was stopped, how many records it emitted, and the pass of its pool.
fn run<'a, 'p, R: Wait + Abort>(
    rt: &R,
    alloc: Global,
    task: Task<'a, 'p>,
    stretches: &[&[&[u8]]],
    finish: bool,
) -> (Result<(), WriterStopped>, u64, Pass<HeldPool<'p>>)
    requires partition { IsPartitionOf task.job.now task.edge task.index task.partition }
    requires stop { IsPassOf task.stop.now task.stop_pass }
    ensures { IsPassOf task.entry.partition.pool.now result.2 }
{
    let Task {
        job,
        edge,
        index,
        partition,
        stop,
        stop_pass,
    } = task;
    let Ok(mut writer) = RecordWriter::new(alloc, job, edge, index, 0, partition, stop, stop_pass)
    else {
        panic!(rt; "no memory")
    };
    let written = write(rt, &mut writer, stretches, finish);
    let emitted = writer.emitted();
    let (passes, _stop_pass) = writer.into_passes(rt);
    let PartitionPasses {
        subpartitions: _,
        pool,
    } = passes;
    (written, emitted, pool)
}

// How many records there are in these stretches.
fn records_in(stretches: &[&[&[u8]]]) -> u64 {
    let mut count: u64 = 0;
    for records in stretches {
        count = count.wrapping_add(records.len() as u64);
    }
    count
}

// The records of each stretch, or the buffers of each.
type Stretches = &'static [&'static [&'static [u8]]];

// What a task writes over an edge, and whether it finishes then; and the buffers that stand in its two
// subpartitions, and how many segments are lent.
struct Written {
    edge: u32,
    records: Stretches,
    finish: bool,
    first: Stretches,
    second: Stretches,
    lent: u32,
}

// A task of index 0 whose channels are two writes this, each buffer of 64 bytes, by a pool of its own.
fn write_over_two<R: Wait + Abort>(rt: &R, alloc: Global, case: &Written) -> Result<(), Fail> {
    assert!(rt; case.edge <= 1);
    let job = job_of(alloc, Exchange::Rebalance)?;
    let (pool, _passes, place) = open_pool(alloc, 8)?;
    let (pool_cell, lender) = open_local(rt, alloc, &pool, place, 6)?;
    write_into_two(rt, alloc, &job, &pool_cell, lender, case)
}

// It writes this into two new subpartitions by the pool that it is lent.
fn write_into_two<'a, 'p, R: Wait + Abort>(
    rt: &R,
    alloc: Global,
    job: &'a Job,
    pool: &'a TurnCell<HeldPool<'p>>,
    lender: Pass<HeldPool<'p>>,
    case: &Written,
) -> Result<(), Fail>
    requires job { IsJob job.now × (last_edge job.now ≡ 1) }
    requires edges { (exchange_on job.now 0 ≡ Rebalance) × (exchange_on job.now 1 ≡ Hash) }
    requires tasks { (tasks job.now 0 ≡ 2) × (tasks job.now 1 ≡ 2) × (tasks job.now 2 ≡ 2) }
    requires pool { IsPassOf pool.now lender }
    requires size { size_of (pool_of (opened_with pool.now)) ≡ 64 }
    requires edge { case.now.edge ≤ 1 }
{
    let (one, one_task, one_sender) = open_subpartition(alloc)?;
    let (two, two_task, two_sender) = open_subpartition(alloc)?;
    let (stop, stop_pass, _other) = open_stop(alloc)?;
    let subpartitions = list_of_two(alloc, one_task, two_task)?;
    let cells = [one, two];
    let partition = Partition {
        subpartitions: &cells,
        first: 0,
        stride: 1,
        pool,
        size: 64,
        passes: PartitionPasses {
            subpartitions,
            pool: lender,
        },
    };
    let task = Task {
        job,
        edge: case.edge,
        index: 0,
        partition,
        stop: &stop,
        stop_pass,
    };
    let (written, emitted, lender) = run(rt, alloc, task, case.records, case.finish);
    assert!(rt; written.is_ok());
    assert_eq!(rt; emitted, records_in(case.records));
    takes(rt, &cells[0], one_sender, case.first, case.finish);
    takes(rt, &cells[1], two_sender, case.second, case.finish);
    assert_eq!(rt; lent(rt, pool, lender), case.lent);
    Ok(())
}

// A task of index 1 whose channel is one writes a record over an edge to the task of the same index, by a pool of
// so many segments. These are then the buffers that stand in the second subpartition. A pool of no segments lets
// it wait until it is stopped.
fn write_over_one<R: Wait + Abort>(
    rt: &R,
    alloc: Global,
    segments: u32,
    buffers: Stretches,
) -> Result<Result<(), WriterStopped>, Fail> {
    let job = job_of(alloc, Exchange::Forward)?;
    let (pool, _passes, place) = open_pool(alloc, 8)?;
    let (pool_cell, lender) = open_local(rt, alloc, &pool, place, segments)?;
    write_into_second(rt, alloc, &job, &pool_cell, lender, buffers)
}

// It writes the record into the second of two new subpartitions by the pool that it is lent.
fn write_into_second<'a, 'p, R: Wait + Abort>(
    rt: &R,
    alloc: Global,
    job: &'a Job,
    pool: &'a TurnCell<HeldPool<'p>>,
    lender: Pass<HeldPool<'p>>,
    buffers: Stretches,
) -> Result<Result<(), WriterStopped>, Fail>
    requires job { IsJob job.now × (last_edge job.now ≡ 1) }
    requires edges { (exchange_on job.now 0 ≡ Forward) × (exchange_on job.now 1 ≡ Hash) }
    requires tasks { (tasks job.now 0 ≡ 2) × (tasks job.now 1 ≡ 2) × (tasks job.now 2 ≡ 2) }
    requires pool { IsPassOf pool.now lender }
    requires size { size_of (pool_of (opened_with pool.now)) ≡ 64 }
{
    let (one, _one_task, _one_sender) = open_subpartition(alloc)?;
    let (two, two_task, two_sender) = open_subpartition(alloc)?;
    let (stop, stop_pass, mut other) = open_stop(alloc)?;
    tell_stop(rt, &stop, &mut other, Cause::Memory);
    let subpartitions = list_of_one(alloc, two_task)?;
    let cells = [one, two];
    let partition = Partition {
        subpartitions: &cells,
        first: 1,
        stride: 2,
        pool,
        size: 64,
        passes: PartitionPasses {
            subpartitions,
            pool: lender,
        },
    };
    let task = Task {
        job,
        edge: 0,
        index: 1,
        partition,
        stop: &stop,
        stop_pass,
    };
    let (written, _emitted, _lender) = run(rt, alloc, task, ONE_RECORD, true);
    takes(rt, &cells[1], two_sender, buffers, written.is_ok());
    Ok(written)
}

const ONE_RECORD: Stretches = &[&[SHORT]];

const IN_ONE_BUFFER: Stretches = &[&[b"\0\0\0\x06arrows"]];

const IN_NO_BUFFER: Stretches = &[&[]];

static IN_TURN: Written = Written {
    edge: 0,
    records: &[&[LONG, SHORT, LAST]],
    finish: true,
    first: &[&[
        b"\0\0\0\x64To be, or not to be, that is the question: whether 'tis nobl",
        b"er in the mind to suffer the slings and \0\0\0\x5aof outrageous fortun",
        b"e, or to take arms against a sea of troubles and by opposing end",
        b" them.",
    ]],
    second: &[&[b"\0\0\0\x06arrows"]],
    lent: 5,
};

#[test]
fn records_go_over_two_channels_in_turn(rt: HostRuntime) -> Result<(), Fail> {
    write_over_two(&rt, rt.alloc(), &IN_TURN)
}

// FNV-1a of "cherry" and of "a" is even, that of "pear" odd.
static BY_HASH: Written = Written {
    edge: 1,
    records: &[&[b"cherry", b"pear", b"a", b"pear"]],
    finish: true,
    first: &[&[b"\0\0\0\x06cherry\0\0\0\x01a"]],
    second: &[&[b"\0\0\0\x04pear\0\0\0\x04pear"]],
    lent: 2,
};

#[test]
fn records_go_to_the_aggregate_by_the_hash_of_their_key(rt: HostRuntime) -> Result<(), Fail> {
    write_over_two(&rt, rt.alloc(), &BY_HASH)
}

static BEING_FILLED: Written = Written {
    edge: 0,
    records: &[&[LONG, SHORT]],
    finish: false,
    first: &[&[b"\0\0\0\x64To be, or not to be, that is the question: whether 'tis nobl"]],
    second: &[&[]],
    lent: 1,
};

#[test]
fn segments_that_are_being_filled_go_back(rt: HostRuntime) -> Result<(), Fail> {
    write_over_two(&rt, rt.alloc(), &BEING_FILLED)
}

static OVER_BARRIERS: Written = Written {
    edge: 0,
    records: &[&[LONG, SHORT], &[LAST], &[]],
    finish: true,
    first: &[
        &[
            b"\0\0\0\x64To be, or not to be, that is the question: whether 'tis nobl",
            b"er in the mind to suffer the slings and ",
        ],
        &[
            b"\0\0\0\x5aof outrageous fortune, or to take arms against a sea of trou",
            b"bles and by opposing end them.",
        ],
        &[],
    ],
    second: &[&[b"\0\0\0\x06arrows"], &[], &[]],
    lent: 5,
};

#[test]
fn a_barrier_goes_behind_what_was_emitted_before(rt: HostRuntime) -> Result<(), Fail> {
    write_over_two(&rt, rt.alloc(), &OVER_BARRIERS)
}

#[test]
fn forward_has_one_channel(rt: HostRuntime) -> Result<(), Fail> {
    let written = write_over_one(&rt, rt.alloc(), 2, IN_ONE_BUFFER)?;
    assert_eq!(rt; written, Ok(()));
    Ok(())
}

#[test]
fn a_writer_that_waits_is_stopped(rt: HostRuntime) -> Result<(), Fail> {
    let written = write_over_one(&rt, rt.alloc(), 0, IN_NO_BUFFER)?;
    assert_eq!(rt; written, Err(WriterStopped));
    Ok(())
}
