// Workers that run at once.
// Functions are lent to `run` and lie in no worker, so that their type stands in no definition of workers.
ghost use Rattle.std.specs.Prelude.{◌≡◌, length};
ghost use denote.Param.Send.{IsSync, IsSend};
ghost use Rattle.flow_defs.specs.declared.job.Job.{Job};
ghost use Rattle.flow_defs.specs.Jobs.{IsJob};
ghost use Rattle.stage_fns.specs.Kinds.{kinds};
ghost use Rattle.job_plan.specs.Plans.{CanRun};
ghost use Rattle.job_workers.specs.Places.{MayRun, Leaves, Each, Pairs, RowLeaves};

use flow_defs::{Job, ListOf};
use stage_fns::FnTable;
use std::mem;
use std::sync::Wait;
use std::thread::{Threads, for_each_mut, join_mut};

/// What is run once for a job, and leaves something.
pub trait Worker {
    type Left: Send;

    ghost may_run: { Job → Self → Type 0 };

    ghost leaves: { Job → Self → Self.Left → Type 0 };

    fn run<R: Wait>(self, rt: &R, job: &Job, functions: &FnTable) -> Self::Left
        requires is_job { IsJob job.now × CanRun (kinds functions.now) job.now }
        requires may { may_run job.now self }
        ensures { leaves job.now self result };
}

/// A worker stands in a place, and what it leaves stands there afterwards.
#[derive(Drop)]
pub enum Place<W, E> {
    Todo(W),
    Ended(E),
    Vacant,
}

// What stands in a place once its worker has run.
fn after<W: Worker, R: Wait>(
    rt: &R,
    job: &Job,
    functions: &FnTable,
    place: Place<W, W::Left>,
) -> Place<W, W::Left>
    requires is_job { IsJob job.now × CanRun (kinds functions.now) job.now }
    requires may { MayRun (W.may_run job.now) place }
    ensures { Leaves (W.leaves job.now) place result }
{
    match place {
        Place::Todo(worker) => Place::Ended(worker.run(rt, job, functions)),
        other => other,
    }
}

// Runs the worker of a place.
fn run_place<W: Worker, R: Wait>(
    rt: &R,
    job: &Job,
    functions: &FnTable,
    place: &mut Place<W, W::Left>,
)
    requires is_job { IsJob job.now × CanRun (kinds functions.now) job.now }
    requires may { MayRun (W.may_run job.now) place.old }
    ensures { Leaves (W.leaves job.now) place.old place.new }
{
    let old = mem::replace(place, Place::Vacant);
    let new = after(rt, job, functions, old);
    match mem::replace(place, new) {
        Place::Vacant => {}
        Place::Todo(_worker) => unreachable!(),
        Place::Ended(_left) => unreachable!(),
    }
}

// Runs all workers at once, each in a thread of its own where threads can be made, and waits for all.
fn run_places<W, R>(rt: &R, job: &Job, functions: &FnTable, places: &mut [Place<W, W::Left>])
where
    W: Worker + Send,
    R: Threads + Wait + Sync,
    requires is_job { IsJob job.now × CanRun (kinds functions.now) job.now }
    requires may { Each (MayRun (W.may_run job.now)) places.old }
    ensures { RowLeaves (W.leaves job.now) places.old places.new }
{
    let count = places.len();
    if count == 0 {
        return;
    }
    for_each_mut(
        rt,
        places,
        count,
        &|_, place|
            requires { IsJob job.now × CanRun (kinds functions.now) job.now × MayRun (W.may_run job.now) place.old }
            ensures { Leaves (W.leaves job.entry.now) place.old place.new }
        { run_place(rt, job, functions, place) },
    );
}

/// Runs the workers of all rows at once, each in a thread of its own where threads can be made, and waits for
/// all.
pub fn run_rows<W, R>(
    rt: &R,
    job: &Job,
    functions: &FnTable,
    rows: &mut [ListOf<Place<W, W::Left>>],
)
where
    W: Worker + Send,
    R: Threads + Wait + Sync,
    requires is_job { IsJob job.now × CanRun (kinds functions.now) job.now }
    requires may { Each (λ row. Each (MayRun (W.may_run job.now)) row.items) rows.old }
    ensures many { length rows.new ≡ length rows.old }
    ensures rows { Pairs (λ old new. RowLeaves (W.leaves job.now) old.items new.items) rows.old rows.new }
{
    let count = rows.len();
    if count == 0 {
        return;
    }
    for_each_mut(
        rt,
        rows,
        count,
        &|_, row|
            requires { IsSync R.row × IsSend W.row × IsJob job.now × CanRun (kinds functions.now) job.now × Each (MayRun (W.may_run job.now)) row.old.items }
            ensures { RowLeaves (W.leaves job.entry.now) row.old.items row.new.items }
        { run_places(rt, job, functions, row.as_mut_slice()) },
    );
}

// The same with the rows of two kinds of workers.
pub fn run_both<V, W, R>(
    rt: &R,
    job: &Job,
    functions: &FnTable,
    ones: &mut [ListOf<Place<V, V::Left>>],
    others: &mut [ListOf<Place<W, W::Left>>],
)
where
    V: Worker + Send,
    W: Worker + Send,
    R: Threads + Wait + Sync,
    requires is_job { IsJob job.now × CanRun (kinds functions.now) job.now }
    requires ones { Each (λ row. Each (MayRun (V.may_run job.now)) row.items) ones.old }
    requires others { Each (λ row. Each (MayRun (W.may_run job.now)) row.items) others.old }
    ensures many { (length ones.new ≡ length ones.old) × (length others.new ≡ length others.old) }
    ensures ones { Pairs (λ old new. RowLeaves (V.leaves job.now) old.items new.items) ones.old ones.new }
    ensures others { Pairs (λ old new. RowLeaves (W.leaves job.now) old.items new.items) others.old others.new }
{
    let mut first = ||
        requires { IsSync R.row × IsSend V.row × IsJob job.now × CanRun (kinds functions.now) job.now × Each (λ row. Each (MayRun (V.may_run job.now)) row.items) ones.now }
        ensures many { length ones.exit.now ≡ length ones.entry.now }
        ensures rows { Pairs (λ old new. RowLeaves (V.leaves job.entry.now) old.items new.items) ones.entry.now ones.exit.now }
    { run_rows(rt, job, functions, ones) };
    let mut second = ||
        requires { IsSync R.row × IsSend W.row × IsJob job.now × CanRun (kinds functions.now) job.now × Each (λ row. Each (MayRun (W.may_run job.now)) row.items) others.now }
        ensures many { length others.exit.now ≡ length others.entry.now }
        ensures rows { Pairs (λ old new. RowLeaves (W.leaves job.entry.now) old.items new.items) others.entry.now others.exit.now }
    { run_rows(rt, job, functions, others) };
    join_mut(rt, &mut first, &mut second);
}
