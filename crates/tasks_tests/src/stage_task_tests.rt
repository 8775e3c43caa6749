// The task of a stage behind two sources, over a partition of one channel and a small pool, with one thread.
ghost use Rattle.std.specs.Prelude.{◌≡◌, ◌≤◌, [], IfOk, IfSome};
ghost use Rattle.turn_cell.specs.Passes.{IsPassOf, number, opened_with};
ghost use Rattle.flow_defs.specs.declared.job.AggKind.TheVariants.{Count};
ghost use Rattle.flow_defs.specs.declared.job.Exchange.TheVariants.{Hash};
ghost use Rattle.flow_defs.specs.declared.job.StageKind.TheVariants.{Upper};
ghost use Rattle.flow_defs.specs.Jobs.{IsJob, last_edge, tasks, exchange};
ghost use Rattle.stage_fns.specs.Functions.{Functions, HasStage, HasAgg};
ghost use Rattle.stage_fns.specs.Kinds.{kinds};
ghost use Rattle.job_plan.specs.Plans.{CanRun};
ghost use Rattle.checkpoint_laws.specs.Chapters.{task_at};
ghost use Rattle.segment_pool.specs.Pools.{size_of};
ghost use Rattle.local_pool.specs.Helds.{pool_of};
ghost use Rattle.snapshot_channel.specs.Passes.{IsCollecting, IsFresh, opening, opening_of, sent_by, task_of};
ghost use Rattle.record_writer.specs.Partitions.{IsPartitionOf};
ghost use Rattle.task_output.specs.Acking.{HasPasses, IsLent};
ghost use Rattle.task_taking.specs.Samples.{account_of};
ghost use Rattle.stage_task.specs.Stages.{IsStageTask};

use crate::lent::{Point, shared_last, start_at};
use crate::list_gate::{ListGate, Piece, gate_of};
use fixtures::{list_of_one, open_local, open_pool, open_stop, open_subpartition, take_in_turn};
use flow_defs::{
    AggKind, BarrierKind, Bytes, Cause, Exchange, Job, ListOf, PeerFault, Stage, StageKind,
    TakeRun, TaskId,
};
use job_start::Start;
use local_pool::HeldPool;
use outside::{Stored, tell_stop};
use record_writer::{Partition, PartitionPasses};
use snapshot_channel::{CollectingPass, Opened, SnapshotChannel, TaskPass};
use stage_fns::{AggFn, FnTable, StageFn, count, upper};
use stage_task::run_stage;
use std::alloc::{AllocError, Global};
use std::process::Abort;
use std::sync::Wait;
use std::test::Fail;
use subpartition::{Item, Subpartition};
use task_output::{Acks, TaskEnd, World, base_of};
use turn_cell::{Pass, TurnCell};

// A job of two sources, a stage of one task that raises letters, and one task of the aggregate.
fn raising_job(alloc: Global) -> Result<Job, AllocError>
    ensures job { IfOk result (λ job. IsJob job × (last_edge job ≡ 1)) }
    ensures edges { IfOk result (λ job. (exchange job 0 ≡ Hash) × (exchange job 1 ≡ Hash)) }
    ensures tasks { IfOk result (λ job. (tasks job 0 ≡ 2) × (tasks job 1 ≡ 1) × (tasks job 2 ≡ 1)) }
    ensures ready { IfOk result (λ job. (functions : Functions) → HasStage functions Upper → HasAgg functions Count → CanRun functions job) }
{
    let mut sources = ListOf::new(alloc);
    sources.push(Bytes::new(alloc))?;
    sources.push(Bytes::new(alloc))?;
    let mut stages = ListOf::new(alloc);
    stages.push(Stage {
        kind: StageKind::Upper,
        arg: Bytes::new(alloc),
        tasks: 1,
        exchange: Exchange::Hash,
    })?;
    Ok(Job {
        sources,
        stages,
        agg: AggKind::Count,
        agg_tasks: 1,
        text: Bytes::new(alloc),
    })
}

// A channel of snapshots, and the passes of the collecting worker and the stage's task.
#[derive(Drop)]
struct Ends {
    channel: SnapshotChannel,
    collecting: CollectingPass,
    of_stage: TaskPass,
}

fn open_ends(alloc: Global, job: &Job, start: &Start, every: Option<u64>) -> Result<Ends, Fail>
    requires is_job { IsJob job.now × (last_edge job.now ≡ 1) }
    requires tasks { (tasks job.now 0 ≡ 2) × (tasks job.now 1 ≡ 1) × (tasks job.now 2 ≡ 1) }
    ensures opening { IfOk result (λ ends. opening_of ends.channel ≡ opening job.now start.now every) }
    ensures collecting { IfOk result (λ ends. IsCollecting ends.channel ends.collecting) }
    ensures stage { IfOk result (λ ends. IsFresh ends.channel ends.of_stage × (task_of ends.of_stage ≡ task_at 1 0)) }
{
    let Opened {
        channel,
        collecting,
        mut passes,
    } = SnapshotChannel::open(alloc, job, start, every)?;
    let Some(_of_count) = passes.pop() else {
        return Err("there is no pass".into());
    };
    let Some(of_stage) = passes.pop() else {
        return Err("there is one pass".into());
    };
    Ok(Ends {
        channel,
        collecting,
        of_stage,
    })
}

// What a stage takes, from where it goes on, and what it is to send: a buffer of these bytes, if there are some, a
// barrier and a snapshot for each of these numbers, and the end or not. It has emitted so many records in each
// snapshot.
#[derive(Clone, Copy)]
struct Case<'a> {
    pieces: &'a [(u32, Piece)],
    from: Option<Point>,
    every: Option<u64>,
    stored: Option<Stored>,
    stopped: bool,
    buffer: &'a [u8],
    numbers: &'a [u64],
    emitted: u64,
    ended: bool,
}

// What stands in a subpartition is what the case names: its buffer, if it has bytes, as many barriers as there are
// numbers, counted from 1, and the end or not.
fn has_sent<R: Wait + Abort>(
    rt: &R,
    cell: &TurnCell<Subpartition>,
    sender: Pass<Subpartition>,
    case: Case<'_>,
)
    requires { IsPassOf cell.now sender × (number sender ≡ 1) }
{
    let mut sender = sender;
    if !case.buffer.is_empty() {
        match take_in_turn(rt, cell, &mut sender) {
            Some(Item::Buffer(filled)) => assert_eq!(rt; filled.bytes(), case.buffer),
            _ => panic!(rt; "no buffer"),
        }
    }
    'barriers: for number in 1..=case.numbers.len() as u64 {
        match take_in_turn(rt, cell, &mut sender) {
            Some(Item::Barrier { k, kind }) => {
                assert_eq!(rt; (k, kind), (number, BarrierKind::Inline));
            }
            _ => panic!(rt; "no barrier"),
        }
    }
    if case.ended {
        assert!(rt; matches!(take_in_turn(rt, cell, &mut sender), Some(Item::End)));
    }
    assert!(rt; take_in_turn(rt, cell, &mut sender).is_none());
}

// One record of each source.
static ONE_OF_EACH: [TakeRun; 2] = [TakeRun { from: 0, count: 1 }, TakeRun { from: 1, count: 1 }];

// The snapshots on the channel are those of the case's numbers, of a stage that took two records before the first
// barrier and none behind it.
fn has_told<R: Wait + Abort>(
    rt: &R,
    channel: &SnapshotChannel,
    collecting: CollectingPass,
    case: Case<'_>,
)
    requires { IsCollecting channel.now collecting }
{
    let mut collecting = collecting;
    let mut takes: &[TakeRun] = &ONE_OF_EACH;
    'snapshots: for number in case.numbers {
        let Some(got) = channel.receive(rt, &mut collecting) else {
            panic!(rt; "no snapshot")
        };
        assert_eq!(rt; got.task, TaskId { stage: 1, index: 0 });
        assert_eq!(rt;
            (got.number, got.emitted, got.ended),
            (*number, case.emitted, false)
        );
        assert_eq!(rt; got.takes.as_slice(), takes);
        takes = &[];
    }
    assert!(rt; channel.receive(rt, &mut collecting).is_none());
}

// Runs the stage's task. Answers why it ended, and how many runs were left.
fn stage<'a, 'p, R: Wait>(
    rt: &R,
    alloc: Global,
    job: &'a Job,
    functions: &FnTable,
    gate: ListGate,
    start: &Start,
    every: Option<u64>,
    world: World<'a, Partition<'a, 'p>>,
) -> (Cause, usize)
    requires task { IsStageTask job.now (record { stage = 1; index = 0 }) (account_of gate.given.items gate.first gate.second gate.over) }
    requires functions { CanRun (kinds functions.now) job.now }
    requires partition { IsPartitionOf job.now 1 0 world.partition }
    requires lent { IsLent job.now 1 0 start.now every world }
{
    let task = TaskId { stage: 1, index: 0 };
    let TaskEnd { takes, cause, .. } = run_stage(
        rt, alloc, job, functions, gate, task, start, every, world,
    );
    (cause, takes.as_slice().len())
}

// Runs the stage's task with a table of its two functions, sees what it has sent, and answers likewise.
fn stage_sends<R: Wait + Abort>(
    rt: &R,
    alloc: Global,
    case: Case<'_>,
) -> Result<(Cause, usize), Fail>
    requires interval { IfSome case.every (λ n. 1 ≤ n) }
{
    let mut functions = FnTable::new(alloc);
    let f: StageFn = Box::new(
        alloc,
        |alloc: Global, arg: &[u8], record: &[u8], list: &mut ListOf<Bytes>| upper(
            alloc, arg, record, list,
        ),
    )?;
    functions.add_stage(StageKind::Upper, f)?;
    let f: AggFn = Box::new(alloc, |record: &[u8], old: u64| count(record, old))?;
    functions.add_agg(AggKind::Count, f)?;
    stage_by(rt, alloc, &functions, case)
}

// It runs by these functions, and tells its snapshots on a channel of its own.
fn stage_by<R: Wait + Abort>(
    rt: &R,
    alloc: Global,
    functions: &FnTable,
    case: Case<'_>,
) -> Result<(Cause, usize), Fail>
    requires functions { HasStage (kinds functions.now) Upper × HasAgg (kinds functions.now) Count }
    requires interval { IfSome case.every (λ n. 1 ≤ n) }
{
    let job = raising_job(alloc)?;
    let start = start_at(alloc, &job, case.from)?;
    let Ends {
        channel,
        collecting,
        of_stage,
    } = open_ends(alloc, &job, &start, case.every)?;
    let (last_image, last_pass) = shared_last(rt, alloc, case.stored)?;
    let acks = Acks {
        snapshots: &channel,
        pass: of_stage,
        last_image: &last_image,
        last_pass,
        base: base_of(&start),
        sent: 0,
    };
    let end = stage_pooled(rt, alloc, &job, functions, acks, &start, case)?;
    has_told(rt, &channel, collecting, case);
    Ok(end)
}

// It fills segments of a pool of its own.
fn stage_pooled<'a, R: Wait + Abort>(
    rt: &R,
    alloc: Global,
    job: &'a Job,
    functions: &FnTable,
    acks: Acks<'a>,
    start: &Start,
    case: Case<'_>,
) -> Result<(Cause, usize), Fail>
    requires job { IsJob job.now × (last_edge job.now ≡ 1) }
    requires edges { (exchange job.now 0 ≡ Hash) × (exchange job.now 1 ≡ Hash) }
    requires tasks { (tasks job.now 0 ≡ 2) × (tasks job.now 1 ≡ 1) × (tasks job.now 2 ≡ 1) }
    requires functions { CanRun (kinds functions.now) job.now }
    requires passes { HasPasses acks × (sent_by acks.pass ≡ []) × (task_of acks.pass ≡ task_at 1 0) }
    requires opening { opening_of acks.snapshots.now ≡ opening job.now start.now case.every }
    requires interval { IfSome case.every (λ n. 1 ≤ n) }
{
    let (pool, _passes, place) = open_pool(alloc, 4)?;
    let (pool_cell, lender) = open_local(rt, alloc, &pool, place, 4)?;
    stage_over(
        rt, alloc, job, functions, acks, &pool_cell, lender, start, case,
    )
}

// It sends on a new subpartition, and what stands in it is seen.
fn stage_over<'a, 'p, R: Wait + Abort>(
    rt: &R,
    alloc: Global,
    job: &'a Job,
    functions: &FnTable,
    acks: Acks<'a>,
    pool: &'a TurnCell<HeldPool<'p>>,
    lender: Pass<HeldPool<'p>>,
    start: &Start,
    case: Case<'_>,
) -> Result<(Cause, usize), Fail>
    requires job { IsJob job.now × (last_edge job.now ≡ 1) }
    requires edges { (exchange job.now 0 ≡ Hash) × (exchange job.now 1 ≡ Hash) }
    requires tasks { (tasks job.now 0 ≡ 2) × (tasks job.now 1 ≡ 1) × (tasks job.now 2 ≡ 1) }
    requires functions { CanRun (kinds functions.now) job.now }
    requires passes { HasPasses acks × (sent_by acks.pass ≡ []) × (task_of acks.pass ≡ task_at 1 0) }
    requires opening { opening_of acks.snapshots.now ≡ opening job.now start.now case.every }
    requires pool { IsPassOf pool.now lender × (size_of (pool_of (opened_with pool.now)) ≡ 64) }
    requires interval { IfSome case.every (λ n. 1 ≤ n) }
{
    let gate = gate_of(alloc, case.pieces)?;
    let (cell, task, sender) = open_subpartition(alloc)?;
    let subpartitions = list_of_one(alloc, task)?;
    let (stop, stop_pass, mut other) = open_stop(alloc)?;
    if case.stopped {
        tell_stop(rt, &stop, &mut other, Cause::Memory);
    }
    let cells = [cell];
    let partition = Partition {
        subpartitions: &cells,
        first: 0,
        stride: 1,
        pool,
        size: 64,
        passes: PartitionPasses {
            subpartitions,
            pool: lender,
        },
    };
    let world = World {
        partition,
        acks,
        stop: &stop,
        stop_pass,
    };
    let end = stage(rt, alloc, job, functions, gate, start, case.every, world);
    has_sent(rt, &cells[0], sender, case);
    Ok(end)
}

// A stage that takes two records before the first barriers, and then the barriers up to this number.
static RECORDS: [(u32, Piece); 4] = [
    (0, Piece::Text("pear")),
    (1, Piece::Text("fig")),
    (0, Piece::Stop(1)),
    (1, Piece::Stop(1)),
];

static TWO_BARRIERS: [(u32, Piece); 6] = [
    (0, Piece::Text("pear")),
    (1, Piece::Text("fig")),
    (0, Piece::Stop(1)),
    (1, Piece::Stop(1)),
    (1, Piece::Stop(2)),
    (0, Piece::Stop(2)),
];

static LINE_BEHIND: [(u32, Piece); 5] = [
    (0, Piece::Text("pear")),
    (1, Piece::Text("fig")),
    (0, Piece::Stop(1)),
    (1, Piece::Stop(1)),
    (1, Piece::Text("plum")),
];

const WRONG_BARRIER: Cause = Cause::Peer {
    fault: PeerFault::Barrier,
};

const BUFFER: &[u8] = b"\0\0\0\x04PEAR\0\0\0\x03FIG";

#[test]
fn a_stage_without_an_interval_sends_one_snapshot(rt: HostRuntime) -> Result<(), Fail> {
    let case = Case {
        pieces: &RECORDS,
        from: None,
        every: None,
        stored: None,
        stopped: false,
        buffer: BUFFER,
        numbers: &[1],
        emitted: 2,
        ended: true,
    };
    let end = stage_sends(&rt, rt.alloc(), case)?;
    assert_eq!(rt; end, (Cause::Done, 0));
    Ok(())
}

#[test]
fn the_checkpoint_behind_an_image_with_all_ended_is_the_last(rt: HostRuntime) -> Result<(), Fail> {
    let case = Case {
        pieces: &TWO_BARRIERS,
        from: None,
        every: Some(1),
        stored: Some(Stored {
            number: 1,
            all_ended: true,
        }),
        stopped: false,
        buffer: BUFFER,
        numbers: &[1, 2],
        emitted: 2,
        ended: true,
    };
    let end = stage_sends(&rt, rt.alloc(), case)?;
    assert_eq!(rt; end, (Cause::Done, 0));
    Ok(())
}

#[test]
fn ends_before_the_last_checkpoint_are_a_fault(rt: HostRuntime) -> Result<(), Fail> {
    let case = Case {
        pieces: &[],
        from: None,
        every: None,
        stored: None,
        stopped: false,
        buffer: b"",
        numbers: &[],
        emitted: 0,
        ended: false,
    };
    let end = stage_sends(&rt, rt.alloc(), case)?;
    assert_eq!(rt; end, (WRONG_BARRIER, 0));
    Ok(())
}

#[test]
fn a_line_behind_the_last_checkpoint_is_a_fault(rt: HostRuntime) -> Result<(), Fail> {
    let case = Case {
        pieces: &LINE_BEHIND,
        from: None,
        every: None,
        stored: None,
        stopped: false,
        buffer: BUFFER,
        numbers: &[1],
        emitted: 2,
        ended: false,
    };
    let end = stage_sends(&rt, rt.alloc(), case)?;
    assert_eq!(rt; end, (WRONG_BARRIER, 1));
    Ok(())
}

#[test]
fn a_task_that_was_done_is_stopped_by_a_fault_before(rt: HostRuntime) -> Result<(), Fail> {
    let case = Case {
        pieces: &RECORDS,
        from: None,
        every: None,
        stored: None,
        stopped: true,
        buffer: BUFFER,
        numbers: &[1],
        emitted: 2,
        ended: true,
    };
    let end = stage_sends(&rt, rt.alloc(), case)?;
    assert_eq!(rt; end, (Cause::Stopped, 0));
    Ok(())
}

// Behind checkpoint 6 the stage had emitted five records.
const BEHIND_FIVE: Point = Point {
    number: 6,
    offsets: &[2, 3],
    ended: &[false, false],
    emitted: &[2, 3, 5],
};

#[test]
fn a_stage_goes_on_with_its_number_and_its_count(rt: HostRuntime) -> Result<(), Fail> {
    let case = Case {
        pieces: &TWO_BARRIERS,
        from: Some(BEHIND_FIVE),
        every: Some(1),
        stored: Some(Stored {
            number: 7,
            all_ended: true,
        }),
        stopped: false,
        buffer: BUFFER,
        numbers: &[7, 8],
        emitted: 7,
        ended: true,
    };
    let end = stage_sends(&rt, rt.alloc(), case)?;
    assert_eq!(rt; end, (Cause::Done, 0));
    Ok(())
}

// Behind checkpoint 6 both sources were at their ends, with two records on the way to the stage.
const ALL_AT_THEIR_ENDS: Point = Point {
    number: 6,
    offsets: &[4, 3],
    ended: &[true, true],
    emitted: &[4, 3, 5],
};

#[test]
fn where_all_sources_were_at_their_ends_the_first_checkpoint_is_the_last(
    rt: HostRuntime,
) -> Result<(), Fail> {
    let case = Case {
        pieces: &RECORDS,
        from: Some(ALL_AT_THEIR_ENDS),
        every: Some(1),
        stored: None,
        stopped: false,
        buffer: BUFFER,
        numbers: &[7],
        emitted: 7,
        ended: true,
    };
    let end = stage_sends(&rt, rt.alloc(), case)?;
    assert_eq!(rt; end, (Cause::Done, 0));
    Ok(())
}
