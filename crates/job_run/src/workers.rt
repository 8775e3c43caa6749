// The workers of a job at work.
ghost use Rattle.std.specs.Prelude.{◌≡◌, ◌≤◌, [], suc, length, All, IfOk, OnErr, OnOk};
ghost use Rattle.flow_defs.specs.Jobs.{IsJob, last_edge, tasks};
ghost use Rattle.stage_fns.specs.Kinds.{kinds};
ghost use Rattle.job_plan.specs.Plans.{CanRun};
ghost use Rattle.job_cells.specs.Edges.{AreAllPassesOf, AreEdgesOf};
ghost use Rattle.job_outcome.specs.Theorems.{HaveRun, IsNewWire};
ghost use Rattle.job_outcome.specs.Words.{link_words, world_words};
ghost use Rattle.job_run.specs.Cells.{AreDealt, CanCheckpoint};

use crate::cells::{CellPasses, RunCells};
use collecting_worker::CollectWorld;
use flow_defs::{Job, ListOf};
use job_cells::{Edge, EdgePasses};
use job_deploy::{Deployed, Shared, deploy};
use job_workers::{CollectPlace, CollectTask, LoopRow, Place, TaskRow, run_all};
use outside::{Keeper, Links, Source, Wire};
use stage_fns::FnTable;
use std::alloc::{AllocError, Global};
use std::sync::Wait;
use std::thread::Threads;

/// What the workers of a job left in their places.
#[derive(Drop)]
pub struct Ran<'a, 'p, S, O, I> {
    pub rows: ListOf<TaskRow<'a, 'p, S>>,
    pub loops: ListOf<LoopRow<'a, 'p, O, I>>,
    pub collected: CollectPlace<'a>,
}

/// Puts the workers of a job into their places and runs them; what each left stands there afterwards. Where
/// there is no memory none runs, and inputs, wires and the keeper stay as they were.
pub fn run_workers<'a, 'p, S, N, K, R>(
    rt: &R,
    alloc: Global,
    job: &'a Job,
    functions: &FnTable,
    every: Option<u64>,
    size: u32,
    edges: &'a [Edge<'p>],
    passes: ListOf<EdgePasses<'p>>,
    cells: &'a RunCells,
    dealt: CellPasses,
    inputs: &mut ListOf<S>,
    wires: &mut ListOf<Wire<N::Out, N::In>>,
    keeper: &mut K,
) -> Result<Ran<'a, 'p, S, N::Out, N::In>, AllocError>
where
    S: Source + Send + Drop,
    N: Links,
    K: Keeper + Send,
    R: Threads + Wait + Sync,
    requires is_job { IsJob job.now × CanRun (kinds functions.now) job.now }
    requires edges { AreEdgesOf job.now size edges.now }
    requires passes { AreAllPassesOf job.now edges.now passes.items }
    requires checkpoints { CanCheckpoint job.now every (K.images keeper.old) }
    requires dealt { AreDealt job.now every cells.now dealt }
    requires inputs { length inputs.old.items ≡ tasks job.now 0 }
    requires wires { length wires.old.items ≡ suc (last_edge job.now) }
    requires unused { All (IsNewWire (link_words N.Out.LinkOut N.In.LinkIn N.belong)) wires.old.items }
    ensures ran { IfOk result (λ d. HaveRun (world_words S.Source N.Out.LinkOut N.In.LinkIn N.belong) (record {
      job = job.now;
      size = size;
      every = every;
      snapshots = cells.now.channel;
      edges = edges.now;
      inputs = inputs.old.items;
      wires = wires.old.items;
      before = K.images keeper.old;
      after = K.images keeper.new;
      fell = K.faults keeper.old;
      rose = K.faults keeper.new;
      rows = d.rows.items;
      loops = d.loops.items;
      collected = d.collected;
    })) }
    ensures taken { OnOk result ((inputs.new.items ≡ []) × (length inputs.old.items ≤ inputs.new.room)) }
    ensures kept { OnErr result ((inputs.new.items ≡ inputs.old.items) × (wires.new.items ≡ wires.old.items) × (keeper.new ≡ keeper.old)) }
{
    let CellPasses {
        collecting,
        snapshots,
        last_collecting,
        last,
        stop_collecting,
        stops,
    } = dealt;
    let shared = Shared {
        start: &cells.start,
        every,
        snapshots: &cells.channel,
        snapshot_passes: snapshots,
        last_image: &cells.last_image,
        last_passes: last,
        stop: &cells.stop,
        stops,
    };
    let world = CollectWorld {
        job,
        snapshots: &cells.channel,
        collecting,
        last_image: &cells.last_image,
        last_pass: last_collecting,
        stop: &cells.stop,
        stop_pass: stop_collecting,
    };
    let deployed = deploy(alloc, job, size, edges, passes, shared, inputs, wires)?;
    let Deployed { rows, loops } = deployed;
    let mut rows = rows;
    let mut loops = loops;
    let mut collected = Place::Todo(CollectTask {
        alloc,
        start: &cells.start,
        every,
        world,
    });
    run_all(
        rt,
        job,
        functions,
        rows.as_mut_slice(),
        loops.as_mut_slice(),
        &mut collected,
        keeper,
    );
    Ok(Ran {
        rows,
        loops,
        collected,
    })
}
