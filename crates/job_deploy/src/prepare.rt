// All that takes memory, before inputs and wires are taken.
ghost use Rattle.std.specs.Prelude.{◌≡◌, ◌<◌, ◌≤◌, ◌+◌, ◌*◌, [], suc, length, slice_get, All, IfOk, OnOk, Some};
ghost use Rattle.flow_defs.specs.Jobs.{IsJob, last_edge, tasks};
ghost use Rattle.job_cells.specs.declared.edge.Edge.{Edge};
ghost use Rattle.job_cells.specs.Edges.{AreAllPassesOf, AreEdgesOf, ArePassesOf, IsEdgeOf};
ghost use Rattle.job_deploy.specs.Making.{AreMade, ArePrepared};
ghost use Rattle.job_deploy.specs.Placing.{AreFewer, AreStops, HasStages, HasStayed};
ghost use Rattle.job_deploy.specs.Shared.{AreShared};
ghost use Rattle.job_deploy.specs.Stops.{stops_needed};

use crate::loops::{Shares, shares_of};
use crate::order::{item_at, turned};
use crate::senders::Senders;
use crate::shared::Shared;
use crate::split::{Ends, ends_of};
use crate::tasks::{SourceLent, aggregate_row, sources_lent, stage_row};
use flow_defs::{Job, ListOf};
use job_cells::{Edge, EdgePasses};
use job_workers::{LoopRow, TaskRow};
use std::alloc::{AllocError, Global};
use std::mem;

/// The workers of the last stages and edges, from the last on, and the passes of the stage that is next.
#[derive(Drop)]
pub struct Made<'a, 'p, S, O, I> {
    pub rows: ListOf<TaskRow<'a, 'p, S>>,
    pub shares: ListOf<Shares<'a, 'p, O, I>>,
    pub senders: Senders<'p>,
}

/// All but inputs and wires: what the sources are lent, the rows of the other stages from the last on, what
/// the loops are lent, and room for the rest.
#[derive(Drop)]
pub struct Prepared<'a, 'p, S, O, I> {
    pub lents: ListOf<SourceLent<'a, 'p>>,
    pub sources: TaskRow<'a, 'p, S>,
    pub rows: ListOf<TaskRow<'a, 'p, S>>,
    pub shares: ListOf<Shares<'a, 'p, O, I>>,
    pub loops: ListOf<LoopRow<'a, 'p, O, I>>,
}

// The workers of the aggregate and of the last edge.
fn last_made<'a, 'p, S: Drop, O: Drop, I: Drop>(
    alloc: Global,
    job: &Job,
    size: u32,
    edges: &'a [Edge<'p>],
    passes: EdgePasses<'p>,
    shared: &mut Shared<'a>,
) -> Result<Made<'a, 'p, S, O, I>, AllocError>
    requires is_job { IsJob job.now }
    requires edges { AreEdgesOf job.now size edges.now }
    requires passes { (edge : Edge) → slice_get edges.now (last_edge job.now) ≡ Some edge → ArePassesOf job.now (last_edge job.now) edge passes }
    requires stops { AreStops shared.old × (2 * tasks job.now (suc (last_edge job.now)) + 4 ≤ length shared.old.stops.items) }
    requires theirs { HasStages job.now (suc (suc (last_edge job.now))) shared.old }
    ensures made { IfOk result (AreMade job.now size shared.old.every shared.old.snapshots.now edges.now (last_edge job.now)) }
    ensures stops { OnOk result (AreFewer (2 * tasks job.now (suc (last_edge job.now)) + 4) shared.old shared.new) }
    ensures theirs { OnOk result (HasStages job.now (suc (last_edge job.now)) shared.new) }
{
    let last = job.stages.as_slice().len();
    let ends = ends_of(passes);
    let Ends {
        senders,
        takers,
        loops,
    } = ends;
    let edge = item_at(edges, last);
    let mut rows = ListOf::new(alloc);
    let row = aggregate_row(alloc, job, size, edges, takers, shared)?;
    rows.push(row)?;
    let mut shares = ListOf::new(alloc);
    let share = shares_of(alloc, size, edge, loops, shared)?;
    shares.push(share)?;
    Ok(Made {
        rows,
        shares,
        senders,
    })
}

impl<'a, 'p, S: Drop, O: Drop, I: Drop> Made<'a, 'p, S, O, I> {
    // Adds the workers of edge `e` and of the stage behind it.
    fn add(
        &mut self,
        alloc: Global,
        job: &Job,
        e: usize,
        size: u32,
        edges: &'a [Edge<'p>],
        passes: EdgePasses<'p>,
        shared: &mut Shared<'a>,
    ) -> Result<(), AllocError>
        requires is_job { IsJob job.now × (e < last_edge job.now) }
        requires edges { AreEdgesOf job.now size edges.now }
        requires made { AreMade job.now size shared.old.every shared.old.snapshots.now edges.now (suc e) self.old }
        requires passes { (edge : Edge) → slice_get edges.now e ≡ Some edge → ArePassesOf job.now e edge passes }
        requires stops { AreStops shared.old × (2 * tasks job.now (suc e) + 4 ≤ length shared.old.stops.items) }
        requires theirs { HasStages job.now (suc (suc e)) shared.old }
        ensures made { OnOk result (AreMade job.now size shared.old.every shared.old.snapshots.now edges.now e self.new) }
        ensures stops { OnOk result (AreFewer (2 * tasks job.now (suc e) + 4) shared.old shared.new) }
        ensures theirs { OnOk result (HasStages job.now (suc e) shared.new) }
    {
        let ends = ends_of(passes);
        let Ends {
            senders,
            takers,
            loops,
        } = ends;
        let next = mem::replace(&mut self.senders, senders);
        let edge = item_at(edges, e);
        let row = stage_row(alloc, job, e, size, edges, takers, next, shared)?;
        self.rows.push(row)?;
        let share = shares_of(alloc, size, edge, loops, shared)?;
        self.shares.push(share)?;
        Ok(())
    }
}

// The workers of all stages but the sources, and of all edges.
fn all_made<'a, 'p, S: Drop, O: Drop, I: Drop>(
    alloc: Global,
    job: &Job,
    size: u32,
    edges: &'a [Edge<'p>],
    passes: ListOf<EdgePasses<'p>>,
    shared: &mut Shared<'a>,
) -> Result<Made<'a, 'p, S, O, I>, AllocError>
    requires is_job { IsJob job.now }
    requires edges { AreEdgesOf job.now size edges.now }
    requires passes { AreAllPassesOf job.now edges.now passes.items }
    requires stops { AreStops shared.old × (stops_needed job.now ≤ length shared.old.stops.items) }
    requires theirs { HasStages job.now (suc (suc (last_edge job.now))) shared.old }
    ensures made { IfOk result (AreMade job.now size shared.old.every shared.old.snapshots.now edges.now 0) }
    ensures stayed { OnOk result (HasStayed shared.old shared.new) }
    ensures stops { OnOk result (AreStops shared.new × (tasks job.now 0 ≤ length shared.new.stops.items)) }
    ensures theirs { OnOk result (HasStages job.now 1 shared.new) }
{
    let mut passes = passes;
    let last = passes.take_last();
    let mut made = last_made(alloc, job, size, edges, last, shared)?;
    'edges: while let Some(next) = passes.pop() {
        let e = passes.as_slice().len();
        made.add(alloc, job, e, size, edges, next, shared)?;
    }
    Ok(made)
}

/// All that is made before inputs and wires are taken.
pub fn prepare<'a, 'p, S: Drop, O: Drop, I: Drop>(
    alloc: Global,
    job: &Job,
    size: u32,
    edges: &'a [Edge<'p>],
    passes: ListOf<EdgePasses<'p>>,
    shared: &mut Shared<'a>,
) -> Result<Prepared<'a, 'p, S, O, I>, AllocError>
    requires is_job { IsJob job.now }
    requires edges { AreEdgesOf job.now size edges.now }
    requires passes { AreAllPassesOf job.now edges.now passes.items }
    requires shared { AreShared job.now shared.old }
    ensures { IfOk result (ArePrepared job.now size shared.old.every shared.old.snapshots.now edges.now) }
{
    let made = all_made(alloc, job, size, edges, passes, shared)?;
    let Made {
        rows,
        shares,
        senders,
    } = made;
    let mut rows = rows;
    rows.reserve(1)?;
    let lents = sources_lent(alloc, job, size, edges, senders, shared)?;
    let mut sources = ListOf::new(alloc);
    sources.reserve(job.tasks(0) as usize)?;
    let mut loops = ListOf::new(alloc);
    loops.reserve(job.edges())?;
    Ok(Prepared {
        lents,
        sources,
        rows,
        shares: turned(shares),
        loops,
    })
}
