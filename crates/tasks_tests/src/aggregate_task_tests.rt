// A task of the aggregate over a gate of the tests.
ghost use Rattle.std.specs.Prelude.{◌≡◌, ◌≤◌, false, [], suc, IfOk, IfSome};
ghost use Rattle.flow_defs.specs.declared.job.AggKind.TheVariants.{Count};
ghost use Rattle.flow_defs.specs.Jobs.{IsJob, last_edge, tasks};
ghost use Rattle.plain_machine.specs.Images.{HasShortKeys};
ghost use Rattle.checkpoint_laws.specs.Chapters.{task_at};
ghost use Rattle.job_start.specs.Starts.{IsStartFor};
ghost use Rattle.stage_fns.specs.Functions.{HasAgg};
ghost use Rattle.stage_fns.specs.Kinds.{kinds};
ghost use Rattle.snapshot_channel.specs.Passes.{IsCollecting, IsFresh, opening, opening_of, sent_by, task_of};
ghost use Rattle.task_output.specs.Acking.{HasPasses, IsLent};

use crate::lent::shared_last;
use crate::list_gate::Piece::{Stop, Text};
use crate::list_gate::{ListGate, Piece, gate_of};
use crate::two_sources::counting_job;
use aggregate_task::run_aggregate;
use fixtures::{list_of_one, list_of_two, open_stop};
use flow_defs::{
    AggKind, Cause, Job, ListOf, PeerFault, RECORD_MAX, Snapshot, Table, TakeRun, TaskId,
};
use job_start::Start;
use outside::{Stored, look_for_stop, tell_cause};
use snapshot_channel::{CollectingPass, Opened, SnapshotChannel, TaskPass};
use stage_fns::{AggFn, FnTable, count};
use std::alloc::{AllocError, Global};
use std::process::Abort;
use std::sync::Wait;
use std::test::Fail;
use task_output::{Acks, TaskEnd, World, base_of};

// A channel of snapshots, and the passes of the collecting worker and of the task.
#[derive(Drop)]
struct Ends {
    channel: SnapshotChannel,
    collecting: CollectingPass,
    of_count: TaskPass,
}

fn open_ends(alloc: Global, job: &Job, start: &Start, every: Option<u64>) -> Result<Ends, Fail>
    requires is_job { IsJob job.now }
    requires counting { (job.now.stages.items ≡ []) × (tasks job.now 0 ≡ 2) × (tasks job.now 1 ≡ 1) }
    ensures opening { IfOk result (λ ends. opening_of ends.channel ≡ opening job.now start.now every) }
    ensures collecting { IfOk result (λ ends. IsCollecting ends.channel ends.collecting) }
    ensures task { IfOk result (λ ends. IsFresh ends.channel ends.of_count × (task_of ends.of_count ≡ task_at 1 0)) }
{
    let Opened {
        channel,
        collecting,
        mut passes,
    } = SnapshotChannel::open(alloc, job, start, every)?;
    let Some(of_count) = passes.pop() else {
        return Err("there is no pass".into());
    };
    Ok(Ends {
        channel,
        collecting,
        of_count,
    })
}

// What the channel holds.
fn received<R: Wait>(
    rt: &R,
    alloc: Global,
    channel: &SnapshotChannel,
    collecting: CollectingPass,
) -> Result<ListOf<Snapshot>, AllocError>
    requires { IsCollecting channel.now collecting }
{
    let mut collecting = collecting;
    let mut snapshots = ListOf::new(alloc);
    'snapshots: for _next in 0..9 {
        match channel.receive(rt, &mut collecting) {
            Some(snapshot) => snapshots.push(snapshot)?,
            None => break 'snapshots,
        }
    }
    Ok(snapshots)
}

// A checkpoint from which a task goes on: its number, whether the sources are at their ends there, and the one row
// that is counted.
#[derive(Clone, Copy)]
struct Point {
    number: u64,
    ended: bool,
    row: (&'static str, u64),
}

// The table of this row.
fn table_of_one(alloc: Global, row: (&str, u64)) -> Result<Table, Fail>
    ensures { IfOk result HasShortKeys }
{
    let key = row.0.as_bytes();
    if key.len() > RECORD_MAX {
        return Err("the key is too long".into());
    }
    let mut table = Table::new(alloc);
    table.set(key, row.1)?;
    Ok(table)
}

// The start of a job at this point.
fn start_of(alloc: Global, job: &Job, point: Point) -> Result<Start, Fail>
    requires is_job { IsJob job.now }
    requires counting { (job.now.stages.items ≡ []) × (tasks job.now 0 ≡ 2) × (tasks job.now 1 ≡ 1) }
    ensures { IfOk result (λ start. IsStartFor job.now start) }
{
    let mut start = Start::new(alloc, job)?;
    let table = table_of_one(alloc, point.row)?;
    start.number = point.number;
    start.ended = list_of_two(alloc, point.ended, point.ended)?;
    start.tables = list_of_one(alloc, table)?;
    Ok(start)
}

// The start of a job: this point, or where there is none its beginning.
fn start_at(alloc: Global, job: &Job, point: Option<Point>) -> Result<Start, Fail>
    requires is_job { IsJob job.now }
    requires counting { (job.now.stages.items ≡ []) × (tasks job.now 0 ≡ 2) × (tasks job.now 1 ≡ 1) }
    ensures { IfOk result (λ start. IsStartFor job.now start) }
{
    match point {
        Some(point) => start_of(alloc, job, point),
        None => Ok(Start::new(alloc, job)?),
    }
}

// What a task is told: the pieces of its gate, from where it goes on, its interval, the image stored last, and the
// fault that another worker has met.
#[derive(Clone, Copy)]
struct Case<'a> {
    pieces: &'a [(u32, Piece)],
    from: Option<Point>,
    every: Option<u64>,
    stored: Option<Stored>,
    met: Option<Cause>,
}

// What a task did, and of what fault other workers hear then.
#[derive(Drop)]
struct Ran {
    cause: Cause,
    takes: ListOf<TakeRun>,
    snapshots: ListOf<Snapshot>,
    told: Option<Cause>,
}

// Runs the task by this gate.
fn task<'a, R: Wait>(
    rt: &R,
    alloc: Global,
    job: &'a Job,
    functions: &FnTable,
    gate: ListGate,
    start: &Start,
    every: Option<u64>,
    world: World<'a, ()>,
) -> (Cause, ListOf<TakeRun>)
    requires gate { (gate.given.items ≡ []) × (gate.first ≡ 0) × (gate.second ≡ 0) × (gate.over ≡ false) }
    requires job { IsJob job.now × (job.now.stages.items ≡ []) × (job.now.agg ≡ Count) × (tasks job.now 0 ≡ 2) × (tasks job.now 1 ≡ 1) }
    requires functions { HasAgg (kinds functions.now) Count }
    requires start { IsStartFor job.now start.now }
    requires lent { IsLent job.now (suc (last_edge job.now)) 0 start.now every world }
{
    let TaskEnd { takes, cause, .. } = run_aggregate(
        rt, alloc, job, functions, gate, 0, start, every, world,
    );
    (cause, takes)
}

// Runs the task by the gate and the stop cell of this case. Answers why it ended, the runs that were left, and of
// what fault others hear.
fn count_by<'a, R: Wait + Abort>(
    rt: &R,
    alloc: Global,
    job: &'a Job,
    functions: &FnTable,
    acks: Acks<'a>,
    start: &Start,
    case: Case<'_>,
) -> Result<(Cause, ListOf<TakeRun>, Option<Cause>), Fail>
    requires job { IsJob job.now × (job.now.stages.items ≡ []) × (job.now.agg ≡ Count) × (tasks job.now 0 ≡ 2) × (tasks job.now 1 ≡ 1) }
    requires functions { HasAgg (kinds functions.now) Count }
    requires passes { HasPasses acks × (sent_by acks.pass ≡ []) × (task_of acks.pass ≡ task_at 1 0) }
    requires start { IsStartFor job.now start.now }
    requires opening { opening_of acks.snapshots.now ≡ opening job.now start.now case.every }
    requires interval { IfSome case.every (λ n. 1 ≤ n) }
{
    let gate = gate_of(alloc, case.pieces)?;
    let (stop, stop_pass, mut other) = open_stop(alloc)?;
    if let Some(cause) = case.met {
        tell_cause(rt, &stop, &mut other, cause);
    }
    let world = World {
        partition: (),
        acks,
        stop: &stop,
        stop_pass,
    };
    let (cause, takes) = task(rt, alloc, job, functions, gate, start, case.every, world);
    let told = look_for_stop(rt, &stop, &mut other);
    Ok((cause, takes, told))
}

fn run<R: Wait + Abort>(rt: &R, alloc: Global, case: Case<'_>) -> Result<Ran, Fail>
    requires { IfSome case.every (λ n. 1 ≤ n) }
{
    let mut functions = FnTable::new(alloc);
    let f: AggFn = Box::new(alloc, |record: &[u8], old: u64| count(record, old))?;
    functions.add_agg(AggKind::Count, f)?;
    let job = counting_job(alloc)?;
    let start = start_at(alloc, &job, case.from)?;
    let Ends {
        channel,
        collecting,
        of_count,
    } = open_ends(alloc, &job, &start, case.every)?;
    let (last_image, last_pass) = shared_last(rt, alloc, case.stored)?;
    let acks = Acks {
        snapshots: &channel,
        pass: of_count,
        last_image: &last_image,
        last_pass,
        base: base_of(&start),
        sent: 0,
    };
    let (cause, takes, told) = count_by(rt, alloc, &job, &functions, acks, &start, case)?;
    let snapshots = received(rt, alloc, &channel, collecting)?;
    Ok(Ran {
        cause,
        takes,
        snapshots,
        told,
    })
}

// It is the task's snapshot of this number, with these rows and these runs.
fn is_snapshot<R: Abort>(
    rt: &R,
    snapshot: &Snapshot,
    number: u64,
    rows: &[(&str, u64)],
    takes: &[TakeRun],
) {
    assert_eq!(rt; snapshot.task, TaskId { stage: 1, index: 0 });
    assert_eq!(rt;
        (
            snapshot.number,
            snapshot.offset,
            snapshot.ended,
            snapshot.emitted
        ),
        (number, 0, false, 0)
    );
    assert_eq!(rt; snapshot.takes.as_slice(), takes);
    assert_eq!(rt; snapshot.table.rows().len(), rows.len());
    for (key, value) in rows {
        assert_eq!(rt; snapshot.table.get(key.as_bytes()), Some(*value));
    }
}

static BARRIER: Cause = Cause::Peer {
    fault: PeerFault::Barrier,
};

// One channel gives a line more before the only barriers.
static ONE_CHECKPOINT: [(u32, Piece); 5] = [
    (0, Text("pear")),
    (1, Text("pear")),
    (0, Stop(1)),
    (1, Text("apple")),
    (1, Stop(1)),
];

static ITS_ROWS: [(&str, u64); 2] = [("apple", 1), ("pear", 2)];

static ITS_TAKES: [TakeRun; 2] = [TakeRun { from: 0, count: 1 }, TakeRun { from: 1, count: 2 }];

#[test]
fn without_an_interval_the_first_checkpoint_is_the_last(rt: HostRuntime) -> Result<(), Fail> {
    let case = Case {
        pieces: &ONE_CHECKPOINT,
        from: None,
        every: None,
        stored: None,
        met: None,
    };
    let ran = run(&rt, rt.alloc(), case)?;
    assert_eq!(rt; ran.cause, Cause::Done);
    assert_eq!(rt; ran.told, None);
    assert_eq!(rt; ran.takes.as_slice().len(), 0);
    assert_eq!(rt; ran.snapshots.as_slice().len(), 1);
    is_snapshot(&rt, &ran.snapshots.as_slice()[0], 1, &ITS_ROWS, &ITS_TAKES);
    Ok(())
}

static TWO_CHECKPOINTS: [(u32, Piece); 6] = [
    (0, Text("pear")),
    (0, Stop(1)),
    (1, Stop(1)),
    (1, Text("fig")),
    (1, Stop(2)),
    (0, Stop(2)),
];

static FIRST_ROWS: [(&str, u64); 1] = [("pear", 1)];

static SECOND_ROWS: [(&str, u64); 2] = [("fig", 1), ("pear", 1)];

// One record of one channel, and one of the other.
static OF_FIRST: [TakeRun; 1] = [TakeRun { from: 0, count: 1 }];

static OF_SECOND: [TakeRun; 1] = [TakeRun { from: 1, count: 1 }];

#[test]
fn with_an_interval_the_image_before_tells_the_last(rt: HostRuntime) -> Result<(), Fail> {
    let case = Case {
        pieces: &TWO_CHECKPOINTS,
        from: None,
        every: Some(1),
        stored: Some(Stored {
            number: 1,
            all_ended: true,
        }),
        met: None,
    };
    let ran = run(&rt, rt.alloc(), case)?;
    assert_eq!(rt; ran.cause, Cause::Done);
    let snapshots = ran.snapshots.as_slice();
    assert_eq!(rt; snapshots.len(), 2);
    is_snapshot(&rt, &snapshots[0], 1, &FIRST_ROWS, &OF_FIRST);
    is_snapshot(&rt, &snapshots[1], 2, &SECOND_ROWS, &OF_SECOND);
    Ok(())
}

static NO_CHECKPOINT: [(u32, Piece); 1] = [(0, Text("pear"))];

#[test]
fn channels_that_end_before_the_last_checkpoint_are_a_fault(rt: HostRuntime) -> Result<(), Fail> {
    let case = Case {
        pieces: &NO_CHECKPOINT,
        from: None,
        every: None,
        stored: None,
        met: None,
    };
    let ran = run(&rt, rt.alloc(), case)?;
    assert_eq!(rt; ran.cause, BARRIER);
    assert_eq!(rt; ran.told, Some(BARRIER));
    assert_eq!(rt; ran.snapshots.as_slice().len(), 0);
    assert_eq!(rt; ran.takes.as_slice(), OF_FIRST.as_slice());
    Ok(())
}

static LINE_BEHIND: [(u32, Piece); 3] = [(0, Stop(1)), (1, Stop(1)), (1, Text("late"))];

#[test]
fn a_line_behind_the_last_checkpoint_is_a_fault(rt: HostRuntime) -> Result<(), Fail> {
    let case = Case {
        pieces: &LINE_BEHIND,
        from: None,
        every: None,
        stored: None,
        met: None,
    };
    let ran = run(&rt, rt.alloc(), case)?;
    assert_eq!(rt; ran.cause, BARRIER);
    assert_eq!(rt; ran.snapshots.as_slice().len(), 1);
    assert_eq!(rt; ran.takes.as_slice(), OF_SECOND.as_slice());
    Ok(())
}

static NO_IMAGE: [(u32, Piece); 5] = [
    (0, Stop(1)),
    (1, Stop(1)),
    (0, Text("fig")),
    (0, Stop(2)),
    (1, Stop(2)),
];

#[test]
fn a_task_is_stopped_while_it_waits_for_an_image(rt: HostRuntime) -> Result<(), Fail> {
    let case = Case {
        pieces: &NO_IMAGE,
        from: None,
        every: Some(1),
        stored: None,
        met: Some(Cause::Memory),
    };
    let ran = run(&rt, rt.alloc(), case)?;
    assert_eq!(rt; ran.cause, Cause::Stopped);
    assert_eq!(rt; ran.told, Some(Cause::Memory));
    assert_eq!(rt; ran.snapshots.as_slice().len(), 1);
    assert_eq!(rt; ran.takes.as_slice(), OF_FIRST.as_slice());
    Ok(())
}

// Behind checkpoint 6 four pears were counted.
const BEHIND_FOUR_PEARS: Point = Point {
    number: 6,
    ended: false,
    row: ("pear", 4),
};

static FIFTH_PEAR: [(&str, u64); 1] = [("pear", 5)];

static FIFTH_PEAR_AND_FIG: [(&str, u64); 2] = [("fig", 1), ("pear", 5)];

#[test]
fn a_task_goes_on_with_its_number_and_its_table(rt: HostRuntime) -> Result<(), Fail> {
    let case = Case {
        pieces: &TWO_CHECKPOINTS,
        from: Some(BEHIND_FOUR_PEARS),
        every: Some(1),
        stored: Some(Stored {
            number: 7,
            all_ended: true,
        }),
        met: None,
    };
    let ran = run(&rt, rt.alloc(), case)?;
    assert_eq!(rt; ran.cause, Cause::Done);
    let snapshots = ran.snapshots.as_slice();
    assert_eq!(rt; snapshots.len(), 2);
    is_snapshot(&rt, &snapshots[0], 7, &FIFTH_PEAR, &OF_FIRST);
    is_snapshot(&rt, &snapshots[1], 8, &FIFTH_PEAR_AND_FIG, &OF_SECOND);
    Ok(())
}

// Behind checkpoint 6 both sources were at their ends, with three records on the way.
const ALL_AT_THEIR_ENDS: Point = Point {
    number: 6,
    ended: true,
    row: ("pear", 4),
};

static ALL_ROWS: [(&str, u64); 2] = [("apple", 1), ("pear", 6)];

#[test]
fn where_all_sources_were_at_their_ends_the_first_checkpoint_is_the_last(
    rt: HostRuntime,
) -> Result<(), Fail> {
    let case = Case {
        pieces: &ONE_CHECKPOINT,
        from: Some(ALL_AT_THEIR_ENDS),
        every: Some(1),
        stored: None,
        met: None,
    };
    let ran = run(&rt, rt.alloc(), case)?;
    assert_eq!(rt; ran.cause, Cause::Done);
    assert_eq!(rt; ran.snapshots.as_slice().len(), 1);
    is_snapshot(&rt, &ran.snapshots.as_slice()[0], 7, &ALL_ROWS, &ITS_TAKES);
    Ok(())
}
