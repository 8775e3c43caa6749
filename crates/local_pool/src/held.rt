// A local pool that threads share.
ghost use Rattle.local_pool.specs.Locals.{IsLocalOf};

use crate::entry::PoolEntry;
use crate::local::LocalPool;
use segment_pool::{Pool, Segment};
use std::sync::Wait;
use turn_cell::Turned;

/// A local pool beside the pool that it is of, for threads that share it in a turn cell, whose history
/// tells what was lent since. Its turns are `request_in_turn` and `give_in_turn`.
#[derive(Drop)]
pub struct HeldPool<'a> {
    pool: &'a Pool,
    local: LocalPool,
    // How many segments were lent when it was made.
    first: u32,
    pub ghost of_pool: { IsLocalOf pool.now local },
}

impl<'a> Turned for HeldPool<'a> {
    ghost use Rattle.local_pool.specs.Helds.{terms_of, HeldStandsFor};

    type Entry = PoolEntry;

    // The global pool, the number of the pass, the limit, and how many were lent at first. It has the pool
    // and the pass, so that the local pool can be closed once its cell is.
    type Fixed = (Pool, u32, u32, u32);

    ghost stands = { HeldStandsFor };

    ghost fixed = { terms_of };
}

impl<'a> HeldPool<'a> {
    ghost use Rattle.std.specs.Prelude.{◌≡◌, ◌<◌, ◌≤◌, ◌↔◌, length, IsNone, IfSome};
    ghost use Rattle.segment_pool.specs.Pools.{IsLimited, size_of};
    ghost use Rattle.local_pool.specs.Locals.{HasGiven, HasRequested, IsLocalOf, IsSameLocal, lent_of, limit_of};
    ghost use Rattle.local_pool.specs.Helds.{first_of, local_of, pool_of};

    /// A local pool with its pool.
    pub fn new(pool: &'a Pool, local: LocalPool) -> Self
        requires { IsLocalOf pool.now local }
        ensures { (pool_of result ≡ pool.now) × (local_of result ≡ local) × (first_of result ≡ lent_of local) }
    {
        let first = local.lent();
        HeldPool { pool, local, first }
    }

    /// Lends a segment, as `LocalPool::request`.
    pub fn request<R: Wait>(&mut self, rt: &R) -> Option<Segment>
        ensures same { (pool_of self.new ≡ pool_of self.old) × (first_of self.new ≡ first_of self.old) × IsSameLocal (local_of self.old) (local_of self.new) }
        ensures requested { HasRequested (pool_of self.old) (local_of self.old) (local_of self.new) result }
        ensures limited { IsLimited (pool_of self.old) → (IsNone result ↔ (limit_of (local_of self.old) ≤ lent_of (local_of self.old))) }
        ensures size { IfSome result (λ segment. length segment ≡ size_of (pool_of self.old)) }
    {
        self.local.request(rt, self.pool)
    }

    /// Takes a segment back, as `LocalPool::give`.
    pub fn give<R: Wait>(&mut self, rt: &R, segment: Segment)
        requires lent { 0 < lent_of (local_of self.old) }
        requires size { length segment ≡ size_of (pool_of self.old) }
        ensures same { (pool_of self.new ≡ pool_of self.old) × (first_of self.new ≡ first_of self.old) × IsSameLocal (local_of self.old) (local_of self.new) }
        ensures given { HasGiven (local_of self.old) (local_of self.new) segment }
    {
        self.local.give(rt, self.pool, segment);
    }

    /// How many segments are lent.
    pub fn lent(&self) -> u32
        ensures { result ≡ lent_of (local_of self.now) }
    {
        self.local.lent()
    }

    /// The local pool, to be closed.
    pub fn into_local(self) -> LocalPool
        ensures local { result ≡ local_of self.entry }
        ensures of_pool { IsLocalOf (pool_of self.entry) result }
    {
        let HeldPool {
            pool: _,
            local,
            first: _,
        } = self;
        local
    }
}
