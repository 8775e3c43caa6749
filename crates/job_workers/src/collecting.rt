// The worker that collects the snapshots of a job's tasks.
ghost use Rattle.job_workers.specs.Collecting.{LeftByCollector, MayCollect, TakesImages};

use crate::keeping::KeepingWorker;
use crate::place::Place;
use collecting_worker::{CollectEnd, CollectWorld, collect_images};
use job_start::Start;
use outside::Keeper;
use std::alloc::Global;
use std::sync::Wait;

/// What the worker that collects is run with: from where the tasks of the job go on, how many lines a source reads
/// between two checkpoints, from 1, or None for the last one alone, and what it shares with others.
#[derive(Drop)]
pub struct CollectTask<'a> {
    pub alloc: Global,
    pub start: &'a Start,
    pub every: Option<u64>,
    pub world: CollectWorld<'a>,
}

/// The place of the worker that collects.
pub type CollectPlace<'a> = Place<CollectTask<'a>, CollectEnd>;

impl<'a, K: Keeper> KeepingWorker<K> for CollectTask<'a> {
    type Left = CollectEnd;

    ghost may_run = { λ task. MayCollect task };

    ghost takes = { λ keeper. TakesImages (K.images keeper) };

    ghost leaves = { λ before after task end. LeftByCollector (K.images before) (K.images after) (K.faults before) (K.faults after) task end };

    fn run<R: Wait>(self, rt: &R, keeper: &mut K) -> CollectEnd {
        let CollectTask {
            alloc,
            start,
            every,
            world,
        } = self;
        collect_images(rt, alloc, keeper, start, every, world)
    }
}
