// A channel of a job with one source and one task that counts.
ghost use Rattle.std.specs.Prelude.{◌≡◌, ◌+◌, None, [], length, IfOk, OnOk};
ghost use Rattle.flow_defs.specs.Jobs.{IsJob};
ghost use Rattle.snapshot_channel.specs.Snapshots.{task};
ghost use Rattle.snapshot_channel.specs.Passes.{IsCollecting, IsFresh, IsPassOf, opening_of, sent_by, task_of};

use crate::snapshots::told;
use fixtures::counting_job;
use flow_defs::{Job, ListOf, TaskId};
use job_start::Start;
use snapshot_channel::{CollectingPass, Opened, SnapshotChannel, TaskPass};
use std::alloc::Global;
use std::sync::Wait;
use std::test::Fail;

// A channel behind checkpoint 6, and its passes.
#[derive(Drop)]
struct Ends {
    channel: SnapshotChannel,
    collecting: CollectingPass,
    of_source: TaskPass,
    of_count: TaskPass,
}

fn open_ends(alloc: Global, job: &Job) -> Result<Ends, Fail>
    requires is_job { IsJob job.now }
    requires counting { (job.now.stages.items ≡ []) × (length job.now.sources.items ≡ 1) × (job.now.agg_tasks ≡ 1) }
    ensures number { IfOk result (λ ends. (opening_of ends.channel).start.number ≡ 6) }
    ensures collecting { IfOk result (λ ends. IsCollecting ends.channel ends.collecting) }
    ensures source { IfOk result (λ ends. IsFresh ends.channel ends.of_source × (task_of ends.of_source ≡ task 0 0)) }
    ensures count { IfOk result (λ ends. IsFresh ends.channel ends.of_count × (task_of ends.of_count ≡ task 1 0)) }
{
    let mut start = Start::new(alloc, job)?;
    start.number = 6;
    let Opened {
        channel,
        collecting,
        mut passes,
    } = SnapshotChannel::open(alloc, job, &start, None)?;
    let Some(of_count) = passes.pop() else {
        return Err("there is no pass".into());
    };
    let Some(of_source) = passes.pop() else {
        return Err("there is one pass".into());
    };
    Ok(Ends {
        channel,
        collecting,
        of_source,
        of_count,
    })
}

// Sends the next snapshot of a task, which is at its end.
fn send_next<R: Wait>(
    rt: &R,
    alloc: Global,
    channel: &SnapshotChannel,
    pass: &mut TaskPass,
    task: TaskId,
    number: u64,
) -> Result<(), Fail>
    requires pass { IsPassOf channel.now pass.old }
    requires task { task_of pass.old ≡ task }
    requires number { number ≡ (opening_of channel.now).start.number + length (sent_by pass.old) + 1 }
    ensures pass { IsPassOf channel.now pass.new × (task_of pass.new ≡ task) }
    ensures sent { OnOk result (length (sent_by pass.new) ≡ length (sent_by pass.old) + 1) }
{
    match channel.send(rt, pass, told(alloc, task, number, true)) {
        Ok(()) => Ok(()),
        Err(_) => Err("there is no room".into()),
    }
}

// Whether the next snapshot is this one of this task.
fn next_is<R: Wait>(
    rt: &R,
    channel: &SnapshotChannel,
    collecting: &mut CollectingPass,
    task: TaskId,
    number: u64,
) -> bool
    requires { IsCollecting channel.now collecting.old }
    ensures { IsCollecting channel.now collecting.new }
{
    match channel.receive(rt, collecting) {
        Some(got) => got.task == task && got.number == number,
        None => false,
    }
}

#[test]
fn snapshots_come_in_the_order_in_which_they_were_sent(rt: HostRuntime) -> Result<(), Fail> {
    let alloc = rt.alloc();
    let source = TaskId { stage: 0, index: 0 };
    let count = TaskId { stage: 1, index: 0 };
    let job = counting_job(alloc)?;
    let Ends {
        channel,
        mut collecting,
        mut of_source,
        mut of_count,
    } = open_ends(alloc, &job)?;
    send_next(&rt, alloc, &channel, &mut of_source, source, 7)?;
    send_next(&rt, alloc, &channel, &mut of_count, count, 7)?;
    send_next(&rt, alloc, &channel, &mut of_source, source, 8)?;
    assert!(rt; next_is(&rt, &channel, &mut collecting, source, 7));
    assert!(rt; next_is(&rt, &channel, &mut collecting, count, 7));
    assert!(rt; next_is(&rt, &channel, &mut collecting, source, 8));
    channel.take_back(&mut collecting, of_count);
    assert!(rt; channel.receive(&rt, &mut collecting).is_none());
    let mut passes = ListOf::new(alloc);
    passes.push(of_source)?;
    channel.close(collecting, passes);
    Ok(())
}
