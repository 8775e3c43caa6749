// The workers of a job in their places.
ghost use Rattle.std.specs.Prelude.{◌≡◌, ◌≤◌, ◌<◌, ◌++◌, ◌∷◌, [], suc, length, reverse, IfOk, OnOk, OnErr};
ghost use Rattle.flow_defs.specs.Jobs.{IsJob, last_edge, tasks};
ghost use Rattle.job_cells.specs.Edges.{AreAllPassesOf, AreEdgesOf};
ghost use Rattle.job_deploy.specs.Deployed.{AreDeployed};
ghost use Rattle.job_deploy.specs.Shared.{AreShared};

use crate::loops::loop_rows;
use crate::order::{put, turned};
use crate::prepare::{Prepared, prepare};
use crate::shared::Shared;
use crate::tasks::source_row;
use flow_defs::{Job, ListOf};
use job_cells::{Edge, EdgePasses};
use job_workers::{LoopRow, TaskRow};
use outside::Wire;
use std::alloc::{AllocError, Global};

/// The places of a job's tasks, stage by stage, and of the loops of its connections, edge by edge.
#[derive(Drop)]
pub struct Deployed<'a, 'p, S, O, I> {
    pub rows: ListOf<TaskRow<'a, 'p, S>>,
    pub loops: ListOf<LoopRow<'a, 'p, O, I>>,
}

// The rows of all stages in order, of rows that stand from the last on and have room for one more.
fn with_sources<'a, 'p, S: Drop>(
    rows: ListOf<TaskRow<'a, 'p, S>>,
    sources: TaskRow<'a, 'p, S>,
) -> ListOf<TaskRow<'a, 'p, S>>
    requires { 0 < rows.room }
    ensures { result.items ≡ reverse (rows.entry.items ++ sources.entry ∷ []) }
{
    let mut rows = rows;
    put(&mut rows, sources);
    turned(rows)
}

/// Puts the workers of a job into their places: task a of each stage at place a of its row, the four loops
/// of each edge into its row. The inputs are those of the sources, and there is a wire for each edge, in
/// order. Each task is lent its own pass of the channel of snapshots. Where there is no memory, inputs and
/// wires stay where they were.
pub fn deploy<'a, 'p, S: Drop, O: Drop, I: Drop>(
    alloc: Global,
    job: &Job,
    size: u32,
    edges: &'a [Edge<'p>],
    passes: ListOf<EdgePasses<'p>>,
    shared: Shared<'a>,
    inputs: &mut ListOf<S>,
    wires: &mut ListOf<Wire<O, I>>,
) -> Result<Deployed<'a, 'p, S, O, I>, AllocError>
    requires is_job { IsJob job.now }
    requires edges { AreEdgesOf job.now size edges.now }
    requires passes { AreAllPassesOf job.now edges.now passes.items }
    requires shared { AreShared job.now shared }
    requires inputs { length inputs.old.items ≡ tasks job.now 0 }
    requires wires { length wires.old.items ≡ suc (last_edge job.now) }
    ensures deployed { IfOk result (λ d. AreDeployed job.now size shared.entry.every shared.entry.snapshots.now edges.now inputs.old.items wires.old.items d.rows.items d.loops.items) }
    ensures taken { OnOk result ((inputs.new.items ≡ []) × (wires.new.items ≡ [])) }
    ensures room { OnOk result (length inputs.old.items ≤ inputs.new.room) }
    ensures kept { OnErr result ((inputs.new.items ≡ inputs.old.items) × (wires.new.items ≡ wires.old.items)) }
{
    let mut shared = shared;
    let prepared = prepare(alloc, job, size, edges, passes, &mut shared)?;
    let Prepared {
        lents,
        sources,
        rows,
        shares,
        loops,
    } = prepared;
    let sources = source_row(alloc, lents, sources, inputs);
    Ok(Deployed {
        rows: with_sources(rows, sources),
        loops: loop_rows(alloc, shares, loops, wires),
    })
}
