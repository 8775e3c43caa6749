// A run of a job, from its inputs to its table.
ghost use Rattle.std.specs.Prelude.{◌≡◌, ◌+◌, ◌≤◌, ℕ, List, length, suc, All, IfErr, IfOk, IfSome};
ghost use Rattle.flow_defs.specs.declared.image.Image.{Image};
ghost use Rattle.flow_defs.specs.Jobs.{IsJob, last_edge, tasks};
ghost use Rattle.flow_defs.specs.Lines.{lines};
ghost use Rattle.plain_machine.specs.Worth.{tally};
ghost use Rattle.outside.specs.Faults.{HasRisen};
ghost use Rattle.outside.specs.Links.{NeverFails};
ghost use Rattle.job_start.specs.Starts.{IsStartFor};
ghost use Rattle.segment_pool.specs.Pools.{size_of};
ghost use Rattle.stage_fns.specs.Kinds.{kinds};
ghost use Rattle.job_plan.specs.Plans.{CanRun};
ghost use Rattle.collecting_worker.specs.Accounts.{HasText};
ghost use Rattle.job_cells.specs.Edges.{AreAllPassesOf, AreEdgesOf};
ghost use Rattle.job_cells.specs.Grants.{AreGrantsOf};
ghost use Rattle.job_cells.specs.Networks.{IsNetworkOf};
ghost use Rattle.job_workers.specs.Collecting.{TakesImages};
ghost use Rattle.job_ends.specs.Ended.{LinksTell};
ghost use Rattle.job_outcome.specs.Outcomes.{AreTold, AreWithin, ComeBack, IsRunCause};
ghost use Rattle.job_outcome.specs.Storing.{EndsIn, HasKept, HasStored, IsTooLarge};
ghost use Rattle.job_outcome.specs.Theorems.{IsNewWire};
ghost use Rattle.job_outcome.specs.Words.{link_words, world_words};
ghost use Rattle.job_run.specs.Cells.{AreCellsOf, CanCheckpoint};
ghost use Rattle.job_run.specs.Runs.{IsRun};
ghost use Rattle.job_run.specs.Wires.{IsLinkGround, IsPeerGround};

use crate::cells::{OpenedCells, open_cells};
use crate::ending::wind_up;
use crate::wires::{give_back, open_wires};
use crate::workers::run_workers;
use flow_defs::{Cause, Job, ListOf, Table};
use job_cells::{Edge, EdgePasses, Grants, Network, open_edges};
use job_chain::laws::runs_are_chains;
use job_outcome::laws::{
    causes_have_grounds, done_collector_has_last, done_workers_have_worth, inputs_come_back,
    keeper_got_images, stored_images_are_chain, sure_wires_have_no_fault, workers_end,
};
use job_start::Start;
use job_text::RunOptions;
use outside::{Keeper, Links, Source, Wire};
use plain_machine::laws::{chain_keeps_worth, start_exists};
use segment_pool::Pool;
use stage_fns::FnTable;
use std::alloc::Global;
use std::sync::Wait;
use std::thread::Threads;

// Runs a job over its edges, these wires, which are given back, and what its workers share.
fn run_over_wires<'p, S, N, K, R>(
    rt: &R,
    alloc: Global,
    job: &Job,
    functions: &FnTable,
    every: Option<u64>,
    size: u32,
    edges: &[Edge<'p>],
    passes: ListOf<EdgePasses<'p>>,
    opened: OpenedCells,
    inputs: &mut ListOf<S>,
    wires: ListOf<Wire<N::Out, N::In>>,
    net: &mut N,
    keeper: &mut K,
) -> Result<Table, Cause>
where
    S: Source + Send + Drop,
    N: Links,
    K: Keeper + Send,
    R: Threads + Wait + Sync,
    requires is_job { IsJob job.now × CanRun (kinds functions.now) job.now }
    requires checkpoints { CanCheckpoint job.now every (K.images keeper.old) }
    requires edges { AreEdgesOf job.now size edges.now }
    requires passes { AreAllPassesOf job.now edges.now passes.items }
    requires opened { AreCellsOf job.now every opened }
    requires inputs { length inputs.old.items ≡ tasks job.now 0 }
    requires wires { length wires.items ≡ suc (last_edge job.now) }
    requires unused { All (IsNewWire (link_words N.Out.LinkOut N.In.LinkIn N.belong)) wires.items }
    requires lent { suc (last_edge job.now) ≤ N.lent net.old }
    ensures run { IsRun (world_words S.Source N.Out.LinkOut N.In.LinkIn N.belong) (record {
      job = job.now;
      start = opened.cells.start;
      every = every;
      before = inputs.old.items;
      after = inputs.new.items;
      kept = K.images keeper.old;
      keeps = K.images keeper.new;
      fell = K.faults keeper.old;
      rose = K.faults keeper.new;
    })
        (IsLinkGround (All (NeverFails N.Out.never_fails N.In.never_fails) wires.items) (N.faults net.old) (N.faults net.new))
        (IsPeerGround N.Out.sent N.In.got N.In.ended job.now (N.wires net.old) (N.wires net.new)) result }
    ensures lent { N.lent net.new + suc (last_edge job.now) ≡ N.lent net.old }
    ensures never_falls { N.faults net.old ≤ N.faults net.new }
{
    let OpenedCells {
        cells,
        passes: dealt,
        own,
        room,
    } = opened;
    let mut wires = wires;
    let ran = run_workers::<S, N, K, R>(
        rt, alloc, job, functions, every, size, edges, passes, &cells, dealt, inputs, &mut wires,
        keeper,
    );
    let Ok(ran) = ran else {
        give_back(net, wires);
        return Err(Cause::Memory);
    };
    workers_end::<S, N>();
    inputs_come_back::<S, N>();
    causes_have_grounds::<S, N>();
    sure_wires_have_no_fault::<S, N>();
    done_workers_have_worth::<S, N>();
    done_collector_has_last::<S, N>();
    stored_images_are_chain::<S, N>();
    keeper_got_images::<S, N>();
    let mut own = own;
    wind_up(
        rt, alloc, job, edges, &cells, room, &mut own, ran, inputs, net,
    )
}

// Runs a job from this start with this pool, by what is granted of it.
fn run_in_pool<S, N, K, R>(
    rt: &R,
    alloc: Global,
    job: &Job,
    functions: &FnTable,
    start: Start,
    every: Option<u64>,
    pool: &Pool,
    grants: Grants,
    size: u32,
    inputs: &mut ListOf<S>,
    net: &mut N,
    keeper: &mut K,
) -> Result<Table, Cause>
where
    S: Source + Send + Drop,
    N: Links,
    K: Keeper + Send,
    R: Threads + Wait + Sync,
    requires is_job { IsJob job.now × CanRun (kinds functions.now) job.now }
    requires checkpoints { CanCheckpoint job.now every (K.images keeper.old) }
    requires start { IsStartFor job.now start }
    requires pool { (size_of pool.now ≡ size) × AreGrantsOf job.now pool.now grants }
    requires inputs { length inputs.old.items ≡ tasks job.now 0 }
    ensures run { IsRun (world_words S.Source N.Out.LinkOut N.In.LinkIn N.belong) (record {
      job = job.now;
      start = start;
      every = every;
      before = inputs.old.items;
      after = inputs.new.items;
      kept = K.images keeper.old;
      keeps = K.images keeper.new;
      fell = K.faults keeper.old;
      rose = K.faults keeper.new;
    })
        (IsLinkGround (N.never_fails net.old) (N.faults net.old) (N.faults net.new))
        (IsPeerGround N.Out.sent N.In.got N.In.ended job.now (N.wires net.old) (N.wires net.new)) result }
    ensures lent { N.lent net.new ≡ N.lent net.old }
    ensures never_falls { N.faults net.old ≤ N.faults net.new }
{
    let Ok((edges, passes)) = open_edges(rt, alloc, job, pool, grants) else {
        return Err(Cause::Memory);
    };
    let Ok(opened) = open_cells(alloc, job, start, every) else {
        return Err(Cause::Memory);
    };
    let many = edges.as_slice().len();
    match open_wires(alloc, net, many) {
        Ok(wires) => {
            let edges = edges.as_slice();
            run_over_wires(
                rt, alloc, job, functions, every, size, edges, passes, opened, inputs, wires, net,
                keeper,
            )
        }
        Err(cause) => Err(cause),
    }
}

/// Runs a job: each task, each of the four loops of each edge's connection, and the worker that collects snapshots is
/// a worker of its own, in a thread of its own where threads can be made. Answers the table that the aggregate's tasks
/// counted, which is that of the last image, or the cause of the first fault that a worker met.
///
/// The images of its checkpoints are stored in the keeper, from number 1 on; it must hold no image yet with a number
/// from 1 on. With aligned barriers as in Flink nothing is in flight at any of them.
///
/// The run works in this network memory, which is the one that its options ask for. There is an input for each
/// source, in order; they come back in the same order. Memory: the pool, the tables, two images,
/// 131,072 bytes for each link and the stacks of the threads. A task of several senders also keeps a run for each
/// change of sender since its last checkpoint, with no interval for the whole run, and an image has those of all
/// tasks: so much may grow with the inputs.
pub fn run_job<S, N, K, R>(
    rt: &R,
    alloc: Global,
    job: &Job,
    functions: &FnTable,
    options: RunOptions,
    network: Network,
    inputs: &mut ListOf<S>,
    net: &mut N,
    keeper: &mut K,
) -> Result<Table, Cause>
where
    S: Source + Send + Drop,
    N: Links,
    K: Keeper + Send,
    R: Threads + Wait + Sync,
    requires is_job { IsJob job.now × CanRun (kinds functions.now) job.now }
    requires network { IsNetworkOf job.now options.pool options.segment network }
    requires inputs { length inputs.old.items ≡ tasks job.now 0 }
    requires text { HasText job.now }
    requires every { IfSome options.every (λ n. 1 ≤ n) }
    requires keeper { TakesImages (K.images keeper.old) }

    // Over links and inputs that tell their bytes the table is the tally of all lines, whatever the order in which workers took their
    // turns.
    ensures tally { IfOk result (λ table. LinksTell N.Out.sent N.In.got → (bytes : ℕ → List ℕ) → AreTold S.left inputs.old.items bytes →
        AreWithin job.now bytes × (table ≡ tally job.now (λ a. lines (bytes a)))) }
    ensures cause { IfErr result (IsRunCause S.left S.faults inputs.old.items inputs.new.items
        (IsLinkGround (N.never_fails net.old) (N.faults net.old) (N.faults net.new))
        (IsPeerGround N.Out.sent N.In.got N.In.ended job.now (N.wires net.old) (N.wires net.new))
        (HasRisen (K.faults keeper.old) (K.faults keeper.new))
        (LinksTell N.Out.sent N.In.got → (bytes : ℕ → List ℕ) → AreTold S.left inputs.old.items bytes → IsTooLarge job.now (λ a. lines (bytes a)) options.every (K.images keeper.old) (K.images keeper.new))) }
    ensures inputs { ComeBack S.faults inputs.old.items inputs.new.items }
    ensures lent { N.lent net.new ≡ N.lent net.old }
    ensures never_falls { N.faults net.old ≤ N.faults net.new }

    // Whatever it answers, the images that the keeper got are then a chain from the start on, and a table is that of the last of them.
    ensures chain { LinksTell N.Out.sent N.In.got → (bytes : ℕ → List ℕ) → AreTold S.left inputs.old.items bytes →
        HasStored job.now (λ a. lines (bytes a)) options.every (K.images keeper.old) (K.images keeper.new) }
    ensures last { IfOk result (λ table. LinksTell N.Out.sent N.In.got → (bytes : ℕ → List ℕ) → AreTold S.left inputs.old.items bytes →
        EndsIn job.now (λ a. lines (bytes a)) options.every (K.images keeper.old) (K.images keeper.new) table) }
    ensures kept { (images : List Image) × HasKept (K.images keeper.old) (K.images keeper.new) images }
    ensures keeper_never_falls { K.faults keeper.old ≤ K.faults keeper.new }
{
    start_exists();
    chain_keeps_worth();
    runs_are_chains();
    let Ok(start) = Start::new(alloc, job) else {
        return Err(Cause::Memory);
    };
    let Network { pool, grants } = network;
    run_in_pool(
        rt,
        alloc,
        job,
        functions,
        start,
        options.every,
        &pool,
        grants,
        options.segment,
        inputs,
        net,
        keeper,
    )
}
