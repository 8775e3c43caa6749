// The worker of a job with two sources and one task that counts, whose snapshots are all sent before it
// runs, in one thread.
ghost use Rattle.std.specs.Prelude.{◌≡◌, ◌≤◌, ℕ, [], true, length, map, All, IfOk, IfSome};
ghost use Rattle.turn_cell.specs.Passes as turns;
ghost use Rattle.flow_defs.specs.Jobs.{IsJob};
ghost use Rattle.job_start.specs.Starts.{IsStartFor, was_ended};
ghost use Rattle.snapshot_channel.specs.Snapshots.{IsAtEnd, all_tasks};
ghost use Rattle.snapshot_channel.specs.Passes.{IsFresh, opening_of, task_of};
ghost use Rattle.outside.specs.MemoryKeepers.{KeeperState};
ghost use Rattle.collecting_worker.specs.Accounts.{HasText, IsLent};

use crate::snapshots::told;
use collecting_worker::{CollectEnd, CollectWorld, collect_images};
use fixtures::{open_last_image, open_stop};
use flow_defs::{Cause, Job, ListOf, TaskId};
use job_start::Start;
use job_text::read_grammar;
use outside::{MemoryKeeper, Stored, look_for_stop, look_for_stored, tell_stop};
use snapshot_channel::{Opened, SnapshotChannel, TaskPass};
use std::alloc::{AllocError, Global};
use std::process::Abort;
use std::sync::Wait;
use std::test::Fail;

const TEXT: &[u8] = b"source a\nsource b\naggregate count 1\n";

// The job of the text.
fn job_of_text(alloc: Global) -> Result<Job, Fail>
    ensures text { IfOk result HasText }
    ensures tasks { IfOk result (λ job. (job.stages.items ≡ []) × (length job.sources.items ≡ 2) × (job.agg_tasks ≡ 1)) }
{
    let Ok(job) = read_grammar(alloc, TEXT) else {
        return Err("this is no text of a job".into());
    };
    if job.stages.as_slice().len() > 0 || job.sources.as_slice().len() != 2 || job.agg_tasks != 1 {
        return Err("it has other tasks".into());
    }
    Ok(job)
}

// Behind which checkpoint the tasks go on, and whether they were at their ends there.
#[derive(Clone, Copy)]
struct Stood {
    number: u64,
    ended: bool,
}

const BEGINNING: Stood = Stood {
    number: 0,
    ended: false,
};

// A start of the job at which all sources stood so.
fn start_at(alloc: Global, job: &Job, stood: Stood) -> Result<Start, AllocError>
    requires { IsJob job.now }
    ensures is_start { IfOk result (λ start. IsStartFor job.now start) }
    ensures number { IfOk result (λ start. start.number ≡ stood.number) }
    ensures ended { IfOk result (λ start. (a : ℕ) → was_ended start a ≡ true → stood.ended ≡ true) }
{
    let mut ended = ListOf::new(alloc);
    for _source in 0..job.tasks(0) {
        ended.push(stood.ended)?;
    }
    let mut start = Start::new(alloc, job)?;
    start.number = stood.number;
    start.ended = ended;
    Ok(start)
}

// How the tasks stand before the first checkpoint: with no interval they are at their ends.
fn stand(every: Option<u64>, stood: Stood) -> Stood
    ensures number { result.number ≡ stood.number }
    ensures ended { IsAtEnd every stood.ended [] → result.ended ≡ true }
{
    match every {
        Some(_) => stood,
        None => Stood {
            number: stood.number,
            ended: true,
        },
    }
}

// Sends the snapshots of a task, one for each of these flags, and stays at its end.
fn send_all<R: Wait>(
    rt: &R,
    alloc: Global,
    channel: &SnapshotChannel,
    pass: TaskPass,
    task: TaskId,
    stand: Stood,
    ends: &[bool],
) -> Result<(), Fail>
    requires fresh { IsFresh channel.now pass × (task_of pass ≡ task) }
    requires number { (opening_of channel.now).start.number ≡ stand.number }
    requires ended { IsAtEnd (opening_of channel.now).every (was_ended (opening_of channel.now).start task.index) [] → stand.ended ≡ true }
{
    let mut pass = pass;
    let mut number = stand.number;
    let mut ended = stand.ended;
    'snapshots: for end in ends {
        let Some(next) = u64::checked_add(number, 1) else {
            return Err("there is no further number".into());
        };
        number = next;
        ended = ended || *end;
        match channel.send(rt, &mut pass, told(alloc, task, number, ended)) {
            Ok(()) => {}
            Err(_) => return Err("there is no room".into()),
        }
    }
    Ok(())
}

// Sends the snapshots of the first source, then those of the task that counts, and then those of the second
// source.
fn send_each<R: Wait>(
    rt: &R,
    alloc: Global,
    channel: &SnapshotChannel,
    passes: ListOf<TaskPass>,
    stand: Stood,
    ends: [&[bool]; 3],
) -> Result<(), Fail>
    requires counting { ((opening_of channel.now).job.stages.items ≡ []) × (length (opening_of channel.now).job.sources.items ≡ 2) × ((opening_of channel.now).job.agg_tasks ≡ 1) }
    requires number { (opening_of channel.now).start.number ≡ stand.number }
    requires ended { (a : ℕ) → IsAtEnd (opening_of channel.now).every (was_ended (opening_of channel.now).start a) [] → stand.ended ≡ true }
    requires fresh { All (IsFresh channel.now) passes.items }
    requires tasks { map task_of passes.items ≡ all_tasks (opening_of channel.now).job }
{
    let mut passes = passes;
    let Some(count) = passes.pop() else {
        return Err("there is no pass".into());
    };
    let Some(second) = passes.pop() else {
        return Err("there is one pass".into());
    };
    let Some(first) = passes.pop() else {
        return Err("there are two passes".into());
    };
    let [of_first, of_count, of_second] = ends;
    let task = TaskId { stage: 0, index: 0 };
    send_all(rt, alloc, channel, first, task, stand, of_first)?;
    let task = TaskId { stage: 1, index: 0 };
    send_all(rt, alloc, channel, count, task, stand, of_count)?;
    let task = TaskId { stage: 0, index: 1 };
    send_all(rt, alloc, channel, second, task, stand, of_second)
}

// An empty keeper, of which these calls fail.
fn keeper_of(alloc: Global, puts: &[u64]) -> Result<MemoryKeeper, AllocError>
    ensures { IfOk result (λ (keeper : KeeperState). keeper.images ≡ []) }
{
    let mut fails = ListOf::new(alloc);
    fails.extend(puts)?;
    Ok(MemoryKeeper::new(ListOf::new(alloc), ListOf::new(alloc), fails))
}

// Runs the worker on an empty keeper.
fn collect<R: Wait>(
    rt: &R,
    alloc: Global,
    keeper: &mut MemoryKeeper,
    start: &Start,
    every: Option<u64>,
    world: CollectWorld<'_>,
) -> CollectEnd
    requires { IsLent start.now every world × (keeper.old.images ≡ []) }
    ensures { turns.IsPassOf world.entry.stop.now result.stop_pass }
{
    collect_images(rt, alloc, keeper, start, every, world)
}

// From where the tasks go on and what they send, whether a fault was met before, and what comes of it: why the
// worker ended, the number and mark of the image that it hands back, what the others were told of it, and the
// first fault that was met.
#[derive(Clone, Copy)]
struct Case<'a> {
    stood: Stood,
    every: Option<u64>,
    ends: [&'a [bool]; 3],
    met: bool,
    cause: Cause,
    last: Option<(u64, bool)>,
    told: Option<Stored>,
    first: Option<Cause>,
}

fn shown(end: &CollectEnd) -> Option<(u64, bool)> {
    match &end.last {
        Some(image) => Some((image.number, image.final_one)),
        None => None,
    }
}

fn collects<R: Wait + Abort>(
    rt: &R,
    alloc: Global,
    keeper: &mut MemoryKeeper,
    case: Case<'_>,
) -> Result<(), Fail>
    requires keeper { keeper.old.images ≡ [] }
    requires interval { IfSome case.every (λ n. 1 ≤ n) }
{
    let job = job_of_text(alloc)?;
    let start = start_at(alloc, &job, case.stood)?;
    let Opened {
        channel,
        collecting,
        passes,
    } = SnapshotChannel::open(alloc, &job, &start, case.every)?;
    let stand = stand(case.every, case.stood);
    send_each(rt, alloc, &channel, passes, stand, case.ends)?;
    let (stop, stop_pass, mut other) = open_stop(alloc)?;
    if case.met {
        tell_stop(rt, &stop, &mut other, Cause::Link);
    }
    let (last_image, last_pass, mut reading) = open_last_image(alloc)?;
    let world = CollectWorld {
        job: &job,
        snapshots: &channel,
        collecting,
        last_image: &last_image,
        last_pass,
        stop: &stop,
        stop_pass,
    };
    let end = collect(rt, alloc, keeper, &start, case.every, world);
    assert_eq!(rt; end.cause, case.cause);
    assert_eq!(rt; shown(&end), case.last);
    assert_eq!(rt; look_for_stored(rt, &last_image, &mut reading), case.told);
    assert_eq!(rt; look_for_stop(rt, &stop, &mut other), case.first);
    Ok(())
}

// The keeper has images of these numbers, and their bytes say whether each is the last.
fn has_kept<R: Abort>(rt: &R, keeper: &MemoryKeeper, want: &[(u64, u8)]) {
    assert_eq!(rt; keeper.images().len(), want.len());
    for (kept, (number, last)) in keeper.images().iter().zip(want) {
        assert_eq!(rt; kept.number, *number);
        assert_eq!(rt; kept.bytes.as_slice().get(13), Some(last));
    }
}

#[test]
fn without_an_interval_the_first_image_is_the_last(rt: HostRuntime) -> Result<(), Fail> {
    let alloc = rt.alloc();
    let mut keeper = keeper_of(alloc, &[])?;
    let case = Case {
        stood: BEGINNING,
        every: None,
        ends: [&[true], &[false], &[true]],
        met: false,
        cause: Cause::Done,
        last: Some((1, true)),
        told: Some(Stored {
            number: 1,
            all_ended: true,
        }),
        first: None,
    };
    collects(&rt, alloc, &mut keeper, case)?;
    has_kept(&rt, &keeper, &[(1, 1)]);
    Ok(())
}

// One source sends its first three snapshots before the others send theirs for checkpoint 1.
#[test]
fn the_last_image_is_behind_one_with_all_sources_ended(rt: HostRuntime) -> Result<(), Fail> {
    let alloc = rt.alloc();
    let mut keeper = keeper_of(alloc, &[])?;
    let case = Case {
        stood: BEGINNING,
        every: Some(2),
        ends: [
            &[true, true, true],
            &[false, false, false],
            &[false, true, true],
        ],
        met: false,
        cause: Cause::Done,
        last: Some((3, true)),
        told: Some(Stored {
            number: 3,
            all_ended: true,
        }),
        first: None,
    };
    collects(&rt, alloc, &mut keeper, case)?;
    has_kept(&rt, &keeper, &[(1, 0), (2, 0), (3, 1)]);
    Ok(())
}

#[test]
fn a_keeper_that_fails_stops_all_workers(rt: HostRuntime) -> Result<(), Fail> {
    let alloc = rt.alloc();
    let mut keeper = keeper_of(alloc, &[2])?;
    let case = Case {
        stood: BEGINNING,
        every: Some(1),
        ends: [&[false, true], &[false, false], &[false, true]],
        met: false,
        cause: Cause::Keeper,
        last: Some((1, false)),
        told: Some(Stored {
            number: 1,
            all_ended: false,
        }),
        first: Some(Cause::Keeper),
    };
    collects(&rt, alloc, &mut keeper, case)?;
    has_kept(&rt, &keeper, &[(1, 0)]);
    Ok(())
}

#[test]
fn nothing_is_stored_once_a_fault_was_met(rt: HostRuntime) -> Result<(), Fail> {
    let alloc = rt.alloc();
    let mut keeper = keeper_of(alloc, &[])?;
    let case = Case {
        stood: BEGINNING,
        every: None,
        ends: [&[true], &[false], &[true]],
        met: true,
        cause: Cause::Stopped,
        last: None,
        told: None,
        first: Some(Cause::Link),
    };
    collects(&rt, alloc, &mut keeper, case)?;
    has_kept(&rt, &keeper, &[]);
    Ok(())
}

// The numbers go on behind those of the start.
#[test]
fn the_first_image_is_the_one_behind_the_start(rt: HostRuntime) -> Result<(), Fail> {
    let alloc = rt.alloc();
    let mut keeper = keeper_of(alloc, &[])?;
    let case = Case {
        stood: Stood {
            number: 6,
            ended: false,
        },
        every: Some(2),
        ends: [
            &[false, true, true],
            &[false, false, false],
            &[true, true, true],
        ],
        met: false,
        cause: Cause::Done,
        last: Some((9, true)),
        told: Some(Stored {
            number: 9,
            all_ended: true,
        }),
        first: None,
    };
    collects(&rt, alloc, &mut keeper, case)?;
    has_kept(&rt, &keeper, &[(7, 0), (8, 0), (9, 1)]);
    Ok(())
}

#[test]
fn the_first_image_is_the_last_behind_a_start_with_all_sources_ended(
    rt: HostRuntime,
) -> Result<(), Fail> {
    let alloc = rt.alloc();
    let mut keeper = keeper_of(alloc, &[])?;
    let case = Case {
        stood: Stood {
            number: 6,
            ended: true,
        },
        every: Some(2),
        ends: [&[false], &[false], &[false]],
        met: false,
        cause: Cause::Done,
        last: Some((7, true)),
        told: Some(Stored {
            number: 7,
            all_ended: true,
        }),
        first: None,
    };
    collects(&rt, alloc, &mut keeper, case)?;
    has_kept(&rt, &keeper, &[(7, 1)]);
    Ok(())
}
