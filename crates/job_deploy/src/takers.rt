// The receiving tasks of an edge.
ghost use Rattle.std.specs.Prelude.{◌≡◌, ◌<◌, ◌≤◌, ◌^◌, ◌*◌, ◌+◌, [], suc, length, All, IfOk};
ghost use Rattle.flow_defs.specs.Items.{Items};
ghost use Rattle.flow_defs.specs.Jobs.{IsJob, last_edge};
ghost use Rattle.turn_cell.specs.Passes.{IsPassOf, opened_with, seen};
ghost use Rattle.segment_pool.specs.Pools.{size_of};
ghost use Rattle.local_pool.specs.Helds.{pool_of};
ghost use Rattle.conn_parts.specs.Shares.{AreNew, AreOwn};
ghost use Rattle.record_writer.specs.Writers.{ways_into};
ghost use Rattle.input_gate.specs.Channels.{cells_in};
ghost use Rattle.gate_account.specs.Accounts.{IsNew};
ghost use Rattle.input_gate.specs.States.{account_in};
ghost use Rattle.input_gate.specs.Turning.{InputCell, InputPass};
ghost use Rattle.job_workers.specs.Tasks.{IsGateBehind};
ghost use Rattle.job_cells.specs.Edges.{IsEdgeOf};
ghost use Rattle.job_deploy.specs.Placing.{AreFewer, AreGateCells, AreStops, AreTakers, HasTheirs, IsStop};

use crate::order::{item_at, part_of};
use crate::shared::Shared;
use flow_defs::{Bytes, Job, ListOf};
use input_gate::{CellGate, InputCell, InputPass};
use job_cells::Edge;
use local_pool::HeldPool;
use outside::StopState;
use std::alloc::{AllocError, Global};
use turn_cell::{Pass, TurnCell};

/// Of the first of the tasks behind an edge, which have no gates yet, the passes of their channels and of their
/// pools.
#[derive(Drop)]
pub struct Takers<'p> {
    pub own: ListOf<ListOf<InputPass>>,
    pub pools: ListOf<Pass<HeldPool<'p>>>,
}

// So many flights with no bytes.
fn flights_of(alloc: Global, many: usize) -> Result<ListOf<Bytes>, AllocError>
    ensures many { IfOk result (λ flights. length flights.items ≡ many) }
    ensures empty { IfOk result (λ flights. All (λ (flight : Items _). flight.items ≡ []) flights.items) }
{
    let mut flights = ListOf::new(alloc);
    for _made in 0..many {
        flights.push(Bytes::new(alloc))?;
    }
    Ok(flights)
}

// A gate of these cells, which has given nothing.
fn gate_of<'a, 'p>(
    alloc: Global,
    cells: &'a [InputCell],
    passes: ListOf<InputPass>,
    pool: &'a TurnCell<HeldPool<'p>>,
    pool_pass: Pass<HeldPool<'p>>,
    stop: &'a TurnCell<StopState>,
    stop_pass: Pass<StopState>,
) -> Result<CellGate<'a, 'p>, AllocError>
    requires few { length cells.now < 2 ^ 32 }
    requires passes { AreOwn 0 cells.now passes.items × AreNew passes.items }
    requires fresh { All (λ (pass : InputPass). seen pass ≡ []) passes.items }
    requires pool { IsPassOf pool.now pool_pass }
    requires stop { IsStop stop.now stop_pass }
    requires sizes { All (λ (cell : InputCell). (opened_with cell).size ≡ size_of (pool_of (opened_with pool.now))) cells.now }
    ensures new { IfOk result (λ gate. IsNew (λ c. []) (account_in gate) × ((account_in gate).channels ≡ length cells.now)) }
    ensures cells { IfOk result (λ gate. cells_in gate.lanes ≡ cells.now) }
{
    let flights = flights_of(alloc, cells.len())?;
    match CellGate::new(
        alloc, cells, passes, flights, pool, pool_pass, stop, stop_pass,
    ) {
        Ok(gate) => Ok(gate),
        Err(_) => Err(AllocError),
    }
}

impl<'p> Takers<'p> {
    /// The gate of the last of these tasks, at the cells of its own channels.
    pub fn next<'a>(
        &mut self,
        alloc: Global,
        job: &Job,
        e: usize,
        size: u32,
        edge: &'a Edge<'p>,
        shared: &mut Shared<'a>,
    ) -> Result<CellGate<'a, 'p>, AllocError>
        requires is_job { IsJob job.now × (e ≤ last_edge job.now) }
        requires edge { IsEdgeOf job.now e size edge.now }
        requires takers { AreTakers job.now e edge.now self.old }
        requires some { 0 < length self.old.own.items }
        requires stops { AreStops shared.old × (0 < length shared.old.stops.items) }
        ensures takers { AreTakers job.now e edge.now self.new }
        ensures fewer { length self.old.own.items ≡ suc (length self.new.own.items) }
        ensures stops { AreFewer 1 shared.old shared.new }
        ensures theirs { HasTheirs shared.old shared.new }
        ensures gate { IfOk result (IsGateBehind job.now e) }
        ensures cells { IfOk result (λ gate. AreGateCells job.now e (length self.new.own.items) edge.now (cells_in gate.lanes)) }
    {
        // Only the contract speaks of it.
        let _job = job;
        let own = self.own.take_last();
        let pool_pass = self.pools.take_last();
        let index = self.own.as_slice().len();
        let ways = own.as_slice().len();
        let first = index * ways;
        let cells = part_of(edge.inputs.as_slice(), first, ways);
        let pool = item_at(edge.gates.as_slice(), index);
        let stop_pass = shared.next_stop();
        gate_of(alloc, cells, own, pool, pool_pass, shared.stop, stop_pass)
    }
}
