// The tasks of a job as workers.
ghost use Rattle.flow_defs.specs.Jobs.{IsJob};
ghost use Rattle.stage_fns.specs.Kinds.{kinds};
ghost use Rattle.job_plan.specs.Plans.{CanRun};
ghost use Rattle.job_workers.specs.Tasks.{LeftByAggregate, LeftBySource, LeftByStage, LeftByTask, MayRunAggregate, MayRunSource, MayRunStage, MayRunTask};

use crate::place::Worker;
use aggregate_task::run_aggregate;
use flow_defs::{Cause, Job, TaskId};
use input_gate::{CellGate, GatePasses};
use job_start::Start;
use outside::{LastImage, Source};
use record_writer::{Partition, PartitionPasses};
use snapshot_channel::TaskPass;
use source_task::run_source;
use stage_fns::FnTable;
use stage_task::run_stage;
use std::alloc::Global;
use std::sync::Wait;
use task_output::{TaskEnd, World, WorldPasses};
use turn_cell::Pass;

/// The task of the source of this index.
#[derive(Drop)]
pub struct SourceTask<'a, 'p, S> {
    pub alloc: Global,
    pub input: S,
    pub index: u32,
    /// From where the tasks of the job go on.
    pub start: &'a Start,
    /// How many lines a source reads between two checkpoints, from 1. None: there is only the last one.
    pub every: Option<u64>,
    pub world: World<'a, Partition<'a, 'p>>,
}

/// The task of this index of the stateless stage behind `edge`.
#[derive(Drop)]
pub struct StageTask<'a, 'p> {
    pub alloc: Global,
    pub gate: CellGate<'a, 'p>,
    pub edge: u32,
    pub index: u32,
    pub start: &'a Start,
    pub every: Option<u64>,
    pub world: World<'a, Partition<'a, 'p>>,
}

/// The aggregate's task of this index.
#[derive(Drop)]
pub struct AggregateTask<'a, 'p> {
    pub alloc: Global,
    pub gate: CellGate<'a, 'p>,
    pub index: u32,
    pub start: &'a Start,
    pub every: Option<u64>,
    pub world: World<'a, ()>,
}

/// A task of a job.
#[derive(Drop)]
pub enum Task<'a, 'p, S> {
    Source(SourceTask<'a, 'p, S>),
    Stage(StageTask<'a, 'p>),
    Aggregate(AggregateTask<'a, 'p>),
}

/// What a task leaves: the input of a source, the passes of a gate and of a partition where it has such, its passes
/// of the channel of snapshots and of the cell of the last image, and why it ended.
#[derive(Drop)]
pub struct TaskLeft<'p, S> {
    pub input: Option<S>,
    pub gate: Option<GatePasses<'p>>,
    pub partition: Option<PartitionPasses<'p>>,
    pub snapshots: Option<TaskPass>,
    pub last_image: Pass<LastImage>,
    pub cause: Cause,
}

// Runs a source.
fn run_source_task<'a, 'p, S: Source, R: Wait>(
    rt: &R,
    job: &Job,
    task: SourceTask<'a, 'p, S>,
) -> TaskLeft<'p, S>
    requires is_job { IsJob job.now }
    requires may { MayRunSource job.now task }
    ensures { LeftBySource S.left S.faults job.now task.entry result }
{
    let SourceTask {
        alloc,
        input,
        index,
        start,
        every,
        world,
    } = task;
    let mut input = input;
    let end = run_source(rt, alloc, job, &mut input, index, start, every, world);
    let TaskEnd { passes, cause, .. } = end;
    let WorldPasses {
        partition,
        snapshots,
        last_image,
        ..
    } = passes;
    TaskLeft {
        input: Some(input),
        gate: None,
        partition: Some(partition),
        snapshots: Some(snapshots),
        last_image,
        cause,
    }
}

// Runs a stateless task.
fn run_stage_task<'a, 'p, S, R: Wait>(
    rt: &R,
    job: &Job,
    functions: &FnTable,
    task: StageTask<'a, 'p>,
) -> TaskLeft<'p, S>
    requires is_job { IsJob job.now × CanRun (kinds functions.now) job.now }
    requires may { MayRunStage job.now task }
    ensures { LeftByStage job.now task.entry result }
{
    let StageTask {
        alloc,
        gate,
        edge,
        index,
        start,
        every,
        world,
    } = task;
    let task = TaskId {
        stage: edge + 1,
        index,
    };
    let end = run_stage(rt, alloc, job, functions, gate, task, start, every, world);
    let TaskEnd {
        gate,
        passes,
        cause,
        ..
    } = end;
    let WorldPasses {
        partition,
        snapshots,
        last_image,
        ..
    } = passes;
    TaskLeft {
        input: None,
        gate: Some(gate.into_passes()),
        partition: Some(partition),
        snapshots: Some(snapshots),
        last_image,
        cause,
    }
}

// Runs a task of the aggregate.
fn run_aggregate_task<'a, 'p, S, R: Wait>(
    rt: &R,
    job: &Job,
    functions: &FnTable,
    task: AggregateTask<'a, 'p>,
) -> TaskLeft<'p, S>
    requires is_job { IsJob job.now × CanRun (kinds functions.now) job.now }
    requires may { MayRunAggregate job.now task }
    ensures { LeftByAggregate job.now task.entry result }
{
    let AggregateTask {
        alloc,
        gate,
        index,
        start,
        every,
        world,
    } = task;
    let end = run_aggregate(rt, alloc, job, functions, gate, index, start, every, world);
    let TaskEnd {
        gate,
        passes,
        cause,
        ..
    } = end;
    let WorldPasses {
        snapshots,
        last_image,
        ..
    } = passes;
    TaskLeft {
        input: None,
        gate: Some(gate.into_passes()),
        partition: None,
        snapshots: Some(snapshots),
        last_image,
        cause,
    }
}

impl<'a, 'p, S: Source + Send> Worker for Task<'a, 'p, S> {
    type Left = TaskLeft<'p, S>;

    ghost may_run = { λ job task. MayRunTask job task };

    ghost leaves = { λ job task left. LeftByTask S.left S.faults job task left };

    fn run<R: Wait>(self, rt: &R, job: &Job, functions: &FnTable) -> TaskLeft<'p, S> {
        match self {
            Task::Source(task) => run_source_task(rt, job, task),
            Task::Stage(task) => run_stage_task(rt, job, functions, task),
            Task::Aggregate(task) => run_aggregate_task(rt, job, functions, task),
        }
    }
}
