// Who lends the global pool's segments to a job's local pools.
ghost use Rattle.std.specs.Prelude.{◌≡◌, ◌<◌, length, reverse, slice_get, IfOk, Some};
ghost use Rattle.segment_pool.specs.Pools.{IsLimited, total_of};
ghost use Rattle.local_pool.specs.Locals.{IsLocalOf, lent_of, limit_of};
ghost use Rattle.local_pool.specs.Shares.{share_of};
ghost use Rattle.job_cells.specs.Lending.{HasLent, IsGrant, IsNext, MayLend};

use crate::open::Grants;
use flow_defs::ListOf;
use local_pool::{LocalFault, LocalPool, Want};
use segment_pool::{Pool, PoolPass};
use std::alloc::{AllocError, Global};
use std::sync::Wait;

/// What the local pools that are not opened yet may have, and how many are opened.
#[derive(Drop)]
pub struct Lender {
    // The last one is the next.
    pub passes: ListOf<PoolPass>,
    pub wants: ListOf<Want>,
    pub limits: ListOf<u32>,
    pub given: usize,
}

// A local pool on a pass of a pool with limits, which always has the segments.
fn local_of<R: Wait>(
    rt: &R,
    alloc: Global,
    pool: &Pool,
    pass: PoolPass,
    want: Want,
    limit: u32,
) -> Result<LocalPool, AllocError>
    requires pool { IsLimited pool.now }
    requires grant { IsGrant pool.now pass want limit }
    ensures local { IfOk result (λ local. IsLocalOf pool.now local) }
    ensures none_lent { IfOk result (λ local. lent_of local ≡ 0) }
    ensures limit { IfOk result (λ local. limit_of local ≡ limit) }
{
    match LocalPool::new(rt, alloc, pool, pass, want.need, want.most) {
        Ok(mut local) => {
            local.set_limit(limit);
            Ok(local)
        }
        Err(LocalFault::Memory { .. }) => Err(AllocError),
        Err(LocalFault::TooFew { .. }) => unreachable!(),
    }
}

impl Lender {
    /// Nothing is lent yet.
    pub fn new(grants: Grants) -> Self
        ensures passes { result.passes.items ≡ reverse grants.passes.items }
        ensures same { (result.wants.items ≡ grants.wants.items) × (result.limits.items ≡ grants.limits.items) }
        ensures given { result.given ≡ 0 }
    {
        let Grants {
            passes,
            wants,
            limits,
        } = grants;
        let mut passes = passes;
        passes.as_mut_slice().reverse();
        Lender {
            passes,
            wants,
            limits,
            given: 0,
        }
    }

    // What the next local pool may have.
    fn next(&mut self, pool: &Pool) -> (PoolPass, Want, u32)
        requires may { MayLend pool.now self.old }
        requires left { self.old.given < length self.old.wants.items }
        ensures may { MayLend pool.now self.new × HasLent 1 self.old self.new }
        ensures grant { IsGrant pool.now result.0 result.1 result.2 }
        ensures want { slice_get self.old.wants.items self.old.given ≡ Some result.1 }
        ensures share { result.2 ≡ share_of self.old.wants.items (total_of pool.now) result.1 }
    {
        // Only the contract speaks of it.
        let _pool = pool;
        let pass = self.passes.take_last();
        let want = self.wants.as_slice()[self.given];
        let limit = self.limits.as_slice()[self.given];
        self.given += 1;
        (pass, want, limit)
    }

    /// Opens the next local pool.
    pub fn lend<R: Wait>(
        &mut self,
        rt: &R,
        alloc: Global,
        pool: &Pool,
    ) -> Result<LocalPool, AllocError>
        requires may { MayLend pool.now self.old }
        requires left { self.old.given < length self.old.wants.items }
        ensures may { MayLend pool.now self.new × HasLent 1 self.old self.new }
        ensures next { IfOk result (IsNext pool.now self.old) }
    {
        let (pass, want, limit) = self.next(pool);
        local_of(rt, alloc, pool, pass, want, limit)
    }
}
