// A worker that runs beside the rows of the others, by what keeps its images.
ghost use Rattle.std.specs.Prelude.{◌≡◌, length};
ghost use denote.Param.Send.{IsSync, IsSend};
ghost use Rattle.flow_defs.specs.Jobs.{IsJob};
ghost use Rattle.stage_fns.specs.Kinds.{kinds};
ghost use Rattle.job_plan.specs.Plans.{CanRun};
ghost use Rattle.job_workers.specs.Places.{MayRun, Leaves, Each, Pairs, RowLeaves};

use crate::place::{Place, Worker, run_both};
use flow_defs::{Job, ListOf};
use stage_fns::FnTable;
use std::mem;
use std::sync::Wait;
use std::thread::{Threads, join_mut};

/// What is run once for a job by what keeps its images, and leaves something.
pub trait KeepingWorker<K> {
    type Left;

    ghost may_run: { Self → Type 0 };

    ghost takes: { K → Type 0 };

    ghost leaves: { K → K → Self → Self.Left → Type 0 };

    fn run<R: Wait>(self, rt: &R, keeper: &mut K) -> Self::Left
        requires may { may_run self }
        requires takes { takes keeper.old }
        ensures { leaves keeper.old keeper.new self result };
}

// What stands in a place once its worker has run by this keeper.
fn after_keeping<C: KeepingWorker<K>, K, R: Wait>(
    rt: &R,
    place: Place<C, C::Left>,
    keeper: &mut K,
) -> Place<C, C::Left>
    requires may { MayRun C.may_run place }
    requires takes { C.takes keeper.old }
    ensures { Leaves (C.leaves keeper.old keeper.new) place result }
{
    match place {
        Place::Todo(worker) => Place::Ended(worker.run(rt, keeper)),
        other => other,
    }
}

// Runs the worker of a place by this keeper.
fn run_keeping<C: KeepingWorker<K>, K, R: Wait>(
    rt: &R,
    place: &mut Place<C, C::Left>,
    keeper: &mut K,
)
    requires may { MayRun C.may_run place.old }
    requires takes { C.takes keeper.old }
    ensures { Leaves (C.leaves keeper.old keeper.new) place.old place.new }
{
    let old = mem::replace(place, Place::Vacant);
    let new = after_keeping(rt, old, keeper);
    match mem::replace(place, new) {
        Place::Vacant => {}
        Place::Todo(_worker) => unreachable!(),
        Place::Ended(_left) => unreachable!(),
    }
}

// Runs the workers of the rows of two kinds, and beside them one by a keeper, and waits for all.
pub fn run_with_keeper<V, W, C, K, R>(
    rt: &R,
    job: &Job,
    functions: &FnTable,
    ones: &mut [ListOf<Place<V, V::Left>>],
    others: &mut [ListOf<Place<W, W::Left>>],
    place: &mut Place<C, C::Left>,
    keeper: &mut K,
)
where
    V: Worker + Send,
    W: Worker + Send,
    C: KeepingWorker<K>,
    R: Threads + Wait + Sync,
    requires is_job { IsJob job.now × CanRun (kinds functions.now) job.now }
    requires ones { Each (λ row. Each (MayRun (V.may_run job.now)) row.items) ones.old }
    requires others { Each (λ row. Each (MayRun (W.may_run job.now)) row.items) others.old }
    requires place { MayRun C.may_run place.old }
    requires keeper { C.takes keeper.old }
    ensures many { (length ones.new ≡ length ones.old) × (length others.new ≡ length others.old) }
    ensures ones { Pairs (λ old new. RowLeaves (V.leaves job.now) old.items new.items) ones.old ones.new }
    ensures others { Pairs (λ old new. RowLeaves (W.leaves job.now) old.items new.items) others.old others.new }
    ensures place { Leaves (C.leaves keeper.old keeper.new) place.old place.new }
{
    let mut first = ||
        requires { IsSync R.row × IsSend V.row × IsSend W.row × IsJob job.now × CanRun (kinds functions.now) job.now × Each (λ row. Each (MayRun (V.may_run job.now)) row.items) ones.now × Each (λ row. Each (MayRun (W.may_run job.now)) row.items) others.now }
        ensures many { (length ones.exit.now ≡ length ones.entry.now) × (length others.exit.now ≡ length others.entry.now) }
        ensures ones { Pairs (λ old new. RowLeaves (V.leaves job.entry.now) old.items new.items) ones.entry.now ones.exit.now }
        ensures others { Pairs (λ old new. RowLeaves (W.leaves job.entry.now) old.items new.items) others.entry.now others.exit.now }
    { run_both(rt, job, functions, ones, others) };
    let mut second = ||
        requires { MayRun C.may_run place.now × C.takes keeper.now }
        ensures { Leaves (C.leaves keeper.entry.now keeper.exit.now) place.entry.now place.exit.now }
    { run_keeping(rt, place, keeper) };
    join_mut(rt, &mut first, &mut second);
}
