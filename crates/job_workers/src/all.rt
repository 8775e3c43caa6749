// All workers of a job at once.
// Places stand in rows, one for a stage or a connection, which spares sums over stages.
ghost use Rattle.std.specs.Prelude.{◌≡◌, length};
ghost use Rattle.flow_defs.specs.Jobs.{IsJob};
ghost use Rattle.stage_fns.specs.Kinds.{kinds};
ghost use Rattle.job_plan.specs.Plans.{CanRun};
ghost use Rattle.job_workers.specs.Collecting.{LeftByCollector, MayCollect, TakesImages};
ghost use Rattle.job_workers.specs.Loops.{LeftByLoop, MayRunLoop};
ghost use Rattle.job_workers.specs.Places.{Each, Leaves, MayRun, Pairs, RowLeaves};
ghost use Rattle.job_workers.specs.Tasks.{LeftByTask, MayRunTask};

use crate::collecting::CollectPlace;
use crate::connection::{ConnLoop, LoopLeft};
use crate::keeping::run_with_keeper;
use crate::place::Place;
use crate::task::{Task, TaskLeft};
use flow_defs::{Job, ListOf};
use outside::{Keeper, LinkIn, LinkOut, Source};
use stage_fns::FnTable;
use std::sync::Wait;
use std::thread::Threads;

/// The place of a task.
pub type TaskPlace<'a, 'p, S> = Place<Task<'a, 'p, S>, TaskLeft<'p, S>>;

/// The places of the tasks of a stage.
pub type TaskRow<'a, 'p, S> = ListOf<TaskPlace<'a, 'p, S>>;

/// The place of a loop.
pub type LoopPlace<'a, 'p, O, I> = Place<ConnLoop<'a, 'p, O, I>, LoopLeft<'p, O, I>>;

/// The places of the four loops of a connection: the one that writes items, the one that reads control frames,
/// the one that reads items, and the one that writes control frames.
pub type LoopRow<'a, 'p, O, I> = ListOf<LoopPlace<'a, 'p, O, I>>;

/// Runs all tasks and all loops of a job at once, and the worker that collects its snapshots, which stores
/// images by the keeper; each in a thread of its own where threads can be made. It waits for all.
pub fn run_all<'a, 'p, S, O, I, K, R>(
    rt: &R,
    job: &Job,
    functions: &FnTable,
    rows: &mut [TaskRow<'a, 'p, S>],
    loops: &mut [LoopRow<'a, 'p, O, I>],
    collecting: &mut CollectPlace<'a>,
    keeper: &mut K,
)
where
    S: Source + Send,
    O: LinkOut + Send + Drop,
    I: LinkIn + Send + Drop,
    K: Keeper,
    R: Threads + Wait + Sync,
    requires is_job { IsJob job.now × CanRun (kinds functions.now) job.now }
    requires rows { Each (λ row. Each (MayRun (MayRunTask job.now)) row.items) rows.old }
    requires loops { Each (λ row. Each (MayRun (MayRunLoop O.finished)) row.items) loops.old }
    requires collecting { MayRun MayCollect collecting.old }
    requires keeper { TakesImages (K.images keeper.old) }
    ensures many { (length rows.new ≡ length rows.old) × (length loops.new ≡ length loops.old) }
    ensures rows { Pairs (λ old new. RowLeaves (LeftByTask S.left S.faults job.now) old.items new.items) rows.old rows.new }
    ensures loops { Pairs (λ old new. RowLeaves (LeftByLoop O.line O.sent O.faults I.line I.got I.ended I.faults) old.items new.items) loops.old loops.new }
    ensures collecting { Leaves (LeftByCollector (K.images keeper.old) (K.images keeper.new) (K.faults keeper.old) (K.faults keeper.new)) collecting.old collecting.new }
{
    run_with_keeper(rt, job, functions, rows, loops, collecting, keeper);
}
