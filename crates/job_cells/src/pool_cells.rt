// The cells of local pools.
ghost use Rattle.std.specs.Prelude.{◌≡◌, ℕ, ◌+◌, ◌<◌, ◌≤◌, [], length, slice_get, IfOk, OnOk, Some};
ghost use Rattle.segment_pool.specs.Pools.{size_of};
ghost use Rattle.local_pool.specs.declared.shares.Want.{Want};
ghost use Rattle.local_pool.specs.Locals.{IsLocalOf};
ghost use Rattle.job_cells.specs.Edges.{HaveShare};
ghost use Rattle.job_cells.specs.Lending.{HasLent, MayLend};
ghost use Rattle.job_cells.specs.Ends.{ArePools, HasPool};

use crate::group::cell_of_two;
use crate::lender::Lender;
use flow_defs::ListOf;
use local_pool::{HeldPool, LocalPool};
use segment_pool::Pool;
use std::alloc::{AllocError, Global};
use std::sync::Wait;
use turn_cell::{Pass, TurnCell};

/// The local pools at one end of an edge, with the passes of a task and of a loop at each.
#[derive(Drop)]
pub struct PoolCells<'p> {
    pub cells: ListOf<TurnCell<HeldPool<'p>>>,
    pub tasks: ListOf<Pass<HeldPool<'p>>>,
    pub loops: ListOf<Pass<HeldPool<'p>>>,
}

impl<'p> PoolCells<'p> {
    /// No pools.
    pub fn new(alloc: Global) -> Self
        ensures { result.cells.items ≡ [] × (result.tasks.items ≡ []) × (result.loops.items ≡ []) }
    {
        PoolCells {
            cells: ListOf::new(alloc),
            tasks: ListOf::new(alloc),
            loops: ListOf::new(alloc),
        }
    }

    /// Adds a local pool of this pool.
    pub fn add(&mut self, alloc: Global, pool: &'p Pool, local: LocalPool) -> Result<(), AllocError>
        requires local { IsLocalOf pool.now local }
        requires pools { ArePools (size_of pool.now) self.old }
        ensures pools { OnOk result (ArePools (size_of pool.now) self.new) }
        ensures many { OnOk result (length self.new.cells.items ≡ length self.old.cells.items + 1) }
        ensures made { OnOk result (HasPool pool.now local self.old self.new) }
    {
        let (cell, task, other) = cell_of_two(alloc, HeldPool::new(pool, local))?;
        self.cells.push(cell)?;
        self.tasks.push(task)?;
        self.loops.push(other)?;
        Ok(())
    }
}

/// The local pools of so many partitions.
pub fn partitions_of<'p, R: Wait>(
    rt: &R,
    alloc: Global,
    pool: &'p Pool,
    lender: &mut Lender,
    many: u32,
) -> Result<PoolCells<'p>, AllocError>
    requires may { MayLend pool.now lender.old }
    requires left { lender.old.given + many ≤ length lender.old.wants.items }
    ensures lender { IfOk result (λ _. MayLend pool.now lender.new × HasLent many lender.old lender.new) }
    ensures pools { IfOk result (λ pools. ArePools (size_of pool.now) pools × (length pools.cells.items ≡ many)) }
    ensures shares { IfOk result (λ pools. (want : Want) →
        ((a : ℕ) → a < many → slice_get lender.old.wants.items (lender.old.given + a) ≡ Some want) → HaveShare lender.old.wants.items want pools.cells.items) }
{
    let mut pools = PoolCells::new(alloc);
    for _made in 0..many {
        let local = lender.lend(rt, alloc, pool)?;
        pools.add(alloc, pool, local)?;
    }
    Ok(pools)
}
