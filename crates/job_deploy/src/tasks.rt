// Tasks in their places.
ghost use Rattle.std.specs.Prelude.{◌≡◌, ◌<◌, ◌≤◌, ◌+◌, ◌*◌, [], suc, length, IfOk, OnOk};
ghost use Rattle.flow_defs.specs.Jobs.{IsJob, last_edge, tasks};
ghost use Rattle.job_cells.specs.Edges.{AreEdgesOf};
ghost use Rattle.job_deploy.specs.Deployed.{AreAggregates, AreStage, IsAggregateAt, IsStageAt};
ghost use Rattle.job_deploy.specs.Lending.{AreLent, AreSendersAt, AreSourcesOver, AreTakersAt, IsLentAt};
ghost use Rattle.job_deploy.specs.Placing.{AreFewer, AreStops, HasFirst, HasStages};

use crate::order::{item_at, put, turned};
use crate::senders::Senders;
use crate::shared::Shared;
use crate::takers::Takers;
use flow_defs::{Job, ListOf};
use job_cells::Edge;
use job_start::Start;
use job_workers::{AggregateTask, Place, SourceTask, StageTask, Task, TaskRow};
use record_writer::Partition;
use std::alloc::{AllocError, Global};
use task_output::World;

/// What a source is lent.
#[derive(Drop)]
pub struct SourceLent<'a, 'p> {
    pub start: &'a Start,
    pub every: Option<u64>,
    pub world: World<'a, Partition<'a, 'p>>,
}

// What the last source that is lent nothing yet is lent.
fn source_lent<'a, 'p>(
    job: &Job,
    size: u32,
    edges: &'a [Edge<'p>],
    senders: &mut Senders<'p>,
    shared: &mut Shared<'a>,
) -> SourceLent<'a, 'p>
    requires is_job { IsJob job.now }
    requires edges { AreEdgesOf job.now size edges.now }
    requires senders { AreSendersAt job.now edges.now 0 senders.old × (0 < length senders.old.own.items) }
    requires stops { AreStops shared.old × (1 ≤ length shared.old.stops.items) }
    requires theirs { HasFirst job.now 0 (length senders.old.own.items) shared.old }
    ensures senders { AreSendersAt job.now edges.now 0 senders.new }
    ensures fewer { length senders.old.own.items ≡ suc (length senders.new.own.items) }
    ensures stops { AreFewer 1 shared.old shared.new }
    ensures theirs { HasFirst job.now 0 (length senders.new.own.items) shared.new }
    ensures lent { IsLentAt job.now size shared.old.every shared.old.snapshots.now edges.now (length senders.new.own.items) result }
{
    let edge = item_at(edges, 0);
    let partition = senders.next(job, 0, size, edge);
    let world = shared.lend(partition);
    SourceLent {
        start: shared.start,
        every: shared.every,
        world,
    }
}

/// What the sources are lent, in the order of the sources.
pub fn sources_lent<'a, 'p>(
    alloc: Global,
    job: &Job,
    size: u32,
    edges: &'a [Edge<'p>],
    senders: Senders<'p>,
    shared: &mut Shared<'a>,
) -> Result<ListOf<SourceLent<'a, 'p>>, AllocError>
    requires is_job { IsJob job.now }
    requires edges { AreEdgesOf job.now size edges.now }
    requires senders { AreSendersAt job.now edges.now 0 senders × (length senders.own.items ≡ tasks job.now 0) }
    requires stops { AreStops shared.old × (tasks job.now 0 ≤ length shared.old.stops.items) }
    requires theirs { HasStages job.now 1 shared.old }
    ensures lent { IfOk result (λ lents. AreLent job.now size shared.old.every shared.old.snapshots.now edges.now lents.items) }
    ensures stops { OnOk result (AreFewer (tasks job.now 0) shared.old shared.new) }
{
    let mut senders = senders;
    let mut lents = ListOf::new(alloc);
    let many = job.tasks(0);
    for _made in 0..many {
        lents.push(source_lent(job, size, edges, &mut senders, shared))?;
    }
    Ok(turned(lents))
}

// The last task of a stateless stage that is not made yet.
fn stage_task<'a, 'p>(
    alloc: Global,
    job: &Job,
    e: usize,
    size: u32,
    edges: &'a [Edge<'p>],
    takers: &mut Takers<'p>,
    senders: &mut Senders<'p>,
    shared: &mut Shared<'a>,
) -> Result<StageTask<'a, 'p>, AllocError>
    requires is_job { IsJob job.now × (e < last_edge job.now) }
    requires edges { AreEdgesOf job.now size edges.now }
    requires takers { AreTakersAt job.now edges.now e takers.old × (0 < length takers.old.own.items) }
    requires senders { AreSendersAt job.now edges.now (suc e) senders.old × (length senders.old.own.items ≡ length takers.old.own.items) }
    requires stops { AreStops shared.old × (2 ≤ length shared.old.stops.items) }
    requires theirs { HasFirst job.now (suc e) (length takers.old.own.items) shared.old }
    ensures takers { OnOk result (AreTakersAt job.now edges.now e takers.new × (length takers.old.own.items ≡ suc (length takers.new.own.items))) }
    ensures senders { OnOk result (AreSendersAt job.now edges.now (suc e) senders.new × (length senders.new.own.items ≡ length takers.new.own.items)) }
    ensures stops { OnOk result (AreFewer 2 shared.old shared.new) }
    ensures theirs { OnOk result (HasFirst job.now (suc e) (length takers.new.own.items) shared.new) }
    ensures task { IfOk result (IsStageAt job.now size shared.old.every shared.old.snapshots.now edges.now e (length takers.new.own.items)) }
{
    let next = e + 1;
    let before = item_at(edges, e);
    let behind = item_at(edges, next);
    let gate = takers.next(alloc, job, e, size, before, shared)?;
    let partition = senders.next(job, next, size, behind);
    let world = shared.lend(partition);
    Ok(StageTask {
        alloc,
        gate,
        edge: e as u32,
        index: takers.own.as_slice().len() as u32,
        start: shared.start,
        every: shared.every,
        world,
    })
}

/// The places of the tasks of the stateless stage behind edge `e`.
pub fn stage_row<'a, 'p, S: Drop>(
    alloc: Global,
    job: &Job,
    e: usize,
    size: u32,
    edges: &'a [Edge<'p>],
    takers: Takers<'p>,
    senders: Senders<'p>,
    shared: &mut Shared<'a>,
) -> Result<TaskRow<'a, 'p, S>, AllocError>
    requires is_job { IsJob job.now × (e < last_edge job.now) }
    requires edges { AreEdgesOf job.now size edges.now }
    requires takers { AreTakersAt job.now edges.now e takers × (length takers.own.items ≡ tasks job.now (suc e)) }
    requires senders { AreSendersAt job.now edges.now (suc e) senders × (length senders.own.items ≡ tasks job.now (suc e)) }
    requires stops { AreStops shared.old × (2 * tasks job.now (suc e) ≤ length shared.old.stops.items) }
    requires theirs { HasStages job.now (suc (suc e)) shared.old }
    ensures row { IfOk result (λ row. AreStage job.now size shared.old.every shared.old.snapshots.now edges.now e row.items) }
    ensures stops { OnOk result (AreFewer (2 * tasks job.now (suc e)) shared.old shared.new) }
    ensures theirs { OnOk result (HasStages job.now (suc e) shared.new) }
{
    let mut takers = takers;
    let mut senders = senders;
    let mut row = ListOf::new(alloc);
    let many = job.tasks(e + 1);
    for _made in 0..many {
        let task = stage_task(
            alloc,
            job,
            e,
            size,
            edges,
            &mut takers,
            &mut senders,
            shared,
        )?;
        row.push(Place::Todo(Task::Stage(task)))?;
    }
    Ok(turned(row))
}

// The last task of the aggregate that is not made yet.
fn aggregate_task<'a, 'p>(
    alloc: Global,
    job: &Job,
    size: u32,
    edges: &'a [Edge<'p>],
    takers: &mut Takers<'p>,
    shared: &mut Shared<'a>,
) -> Result<AggregateTask<'a, 'p>, AllocError>
    requires is_job { IsJob job.now }
    requires edges { AreEdgesOf job.now size edges.now }
    requires takers { AreTakersAt job.now edges.now (last_edge job.now) takers.old × (0 < length takers.old.own.items) }
    requires stops { AreStops shared.old × (2 ≤ length shared.old.stops.items) }
    requires theirs { HasFirst job.now (suc (last_edge job.now)) (length takers.old.own.items) shared.old }
    ensures takers { OnOk result (AreTakersAt job.now edges.now (last_edge job.now) takers.new × (length takers.old.own.items ≡ suc (length takers.new.own.items))) }
    ensures stops { OnOk result (AreFewer 2 shared.old shared.new) }
    ensures theirs { OnOk result (HasFirst job.now (suc (last_edge job.now)) (length takers.new.own.items) shared.new) }
    ensures task { IfOk result (IsAggregateAt job.now size shared.old.every shared.old.snapshots.now edges.now (length takers.new.own.items)) }
{
    let last = job.stages.as_slice().len();
    let edge = item_at(edges, last);
    let gate = takers.next(alloc, job, last, size, edge, shared)?;
    let world = shared.lend(());
    Ok(AggregateTask {
        alloc,
        gate,
        index: takers.own.as_slice().len() as u32,
        start: shared.start,
        every: shared.every,
        world,
    })
}

/// The places of the tasks of the aggregate.
pub fn aggregate_row<'a, 'p, S: Drop>(
    alloc: Global,
    job: &Job,
    size: u32,
    edges: &'a [Edge<'p>],
    takers: Takers<'p>,
    shared: &mut Shared<'a>,
) -> Result<TaskRow<'a, 'p, S>, AllocError>
    requires is_job { IsJob job.now }
    requires edges { AreEdgesOf job.now size edges.now }
    requires takers { AreTakersAt job.now edges.now (last_edge job.now) takers × (length takers.own.items ≡ tasks job.now (suc (last_edge job.now))) }
    requires stops { AreStops shared.old × (2 * tasks job.now (suc (last_edge job.now)) ≤ length shared.old.stops.items) }
    requires theirs { HasStages job.now (suc (suc (last_edge job.now))) shared.old }
    ensures row { IfOk result (λ row. AreAggregates job.now size shared.old.every shared.old.snapshots.now edges.now row.items) }
    ensures stops { OnOk result (AreFewer (2 * tasks job.now (suc (last_edge job.now))) shared.old shared.new) }
    ensures theirs { OnOk result (HasStages job.now (suc (last_edge job.now)) shared.new) }
{
    let stage = job.edges();
    let many = job.tasks(stage);
    let mut takers = takers;
    let mut row = ListOf::new(alloc);
    for _made in 0..many {
        let task = aggregate_task(alloc, job, size, edges, &mut takers, shared)?;
        row.push(Place::Todo(Task::Aggregate(task)))?;
    }
    Ok(turned(row))
}

/// The places of the sources over their inputs, in a row that has room for them. The inputs are taken out of
/// their list, from the last on. Takes no memory.
pub fn source_row<'a, 'p, S: Drop>(
    alloc: Global,
    lents: ListOf<SourceLent<'a, 'p>>,
    row: TaskRow<'a, 'p, S>,
    inputs: &mut ListOf<S>,
) -> TaskRow<'a, 'p, S>
    requires lents { length lents.items ≡ length inputs.old.items }
    requires row { (row.items ≡ []) × (length inputs.old.items ≤ row.room) }
    requires few { length inputs.old.items ≤ 8 }
    ensures row { AreSourcesOver lents.entry.items inputs.old.items result.items }
    ensures taken { inputs.new.items ≡ [] }
    ensures room { length inputs.old.items ≤ inputs.new.room }
{
    let mut lents = lents;
    let mut row = row;
    'sources: while let Some(input) = inputs.pop() {
        let SourceLent {
            start,
            every,
            world,
        } = lents.take_last();
        let task = SourceTask {
            alloc,
            input,
            index: inputs.as_slice().len() as u32,
            start,
            every,
            world,
        };
        put(&mut row, Place::Todo(Task::Source(task)));
    }
    turned(row)
}
