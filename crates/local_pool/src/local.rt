// A local pool.
// What holds of it alone are ghost fields; what needs its pool says `IsLocalOf`. `new` reserves places for
// the need before its first claim, so with no memory for them it takes no turn.
ghost use Rattle.std.specs.Prelude.{◌≡◌, ◌+◌, ◌-◌, ◌≤◌, length};
ghost use Rattle.segment_pool.specs.Passes.{out};

use crate::fault::LocalFault;
use crate::moves::{claim_up_to, give_all};
use flow_defs::ListOf;
use segment_pool::{Pool, PoolPass, Segment};
use std::alloc::Global;
use std::sync::Wait;

/// The segments that one task has of a global pool: its need at any time, kept or lent, and more as
/// far as it lends more. It lends up to its limit, which lies between its need and its most. Every
/// call gets the pool that it was opened with.
#[derive(Drop)]
pub struct LocalPool {
    pass: PoolPass,
    idle: ListOf<Segment>,
    need: u32,
    most: u32,
    limit: u32,
    lent: u32,
    pub ghost counts: { length idle.items + lent ≡ out pass },
    pub ghost few_kept: { length idle.items ≤ need - lent },
    pub ghost holds_need: { need ≤ length idle.items + lent },
    pub ghost holds_most: { length idle.items + lent ≤ most },
    pub ghost limit_from_need: { need ≤ limit },
    pub ghost limit_to_most: { limit ≤ most },
    pub ghost room: { need ≤ length idle.items + idle.room },
}

impl LocalPool {
    ghost use Rattle.std.specs.Prelude.{◌≡◌, ◌+◌, ◌-◌, ◌<◌, ◌≤◌, ◌↔◌, ◌++◌, length, replicate, IsNone, IsErr, IfOk, IfErr, IfSome};
    ghost use Rattle.segment_pool.specs.declared.pool.Pool.{Pool};
    ghost use Rattle.segment_pool.specs.declared.stock.Dealing.TheVariants.{Given};
    ghost use Rattle.segment_pool.specs.Passes.{out};
    ghost use Rattle.segment_pool.specs.Pools.{IsPassOf, IsLimited, size_of};
    ghost use Rattle.local_pool.specs.Moves.{HasDone};
    ghost use Rattle.local_pool.specs.Locals.{IsLocalOf, IsOpened, IsMemory, IsRefusal, handed_back, IsSameLocal, IsGranted, HasRequested, HasGiven, lent_of, kept_of, kept_segments, need_of, most_of, limit_of, pass_of};

    /// Opens a local pool of `pool`, which claims its need at once, one turn for each segment. Its
    /// limit is then its need. A refusal gives back what was claimed.
    pub fn new<R: Wait>(
        rt: &R,
        alloc: Global,
        pool: &Pool,
        pass: PoolPass,
        need: u32,
        most: u32,
    ) -> Result<LocalPool, LocalFault>
        requires numbers { need ≤ most }
        requires pass { IsPassOf pool.now pass × (out pass ≡ 0) × IsGranted pool.now pass need }
        ensures local { IfOk result (λ local. IsLocalOf pool.now local) }
        ensures opened { IfOk result (λ local. IsOpened pass need most local) }
        ensures refused { IfErr result (λ fault. IsRefusal pool.now pass need fault) }
        ensures pass { IfErr result (λ fault. IsPassOf pool.now (handed_back fault) × (out (handed_back fault) ≡ 0)) }
        ensures limited { IsLimited pool.now → IfErr result (λ fault. IsMemory fault) }
    {
        let mut idle = ListOf::new(alloc);
        if idle.reserve(need as usize).is_err() {
            return Err(LocalFault::Memory { pass });
        }
        let mut pass = pass;
        claim_up_to(rt, pool, &mut pass, need, &mut idle);
        let free = idle.as_slice().len() as u32;
        if free < need {
            give_all(rt, pool, &mut pass, idle);
            return Err(LocalFault::TooFew { need, free, pass });
        }
        Ok(LocalPool {
            pass,
            idle,
            need,
            most,
            limit: need,
            lent: 0,
        })
    }

    /// Changes the limit. More may be lent already; then nothing is lent until enough has come back.
    pub fn set_limit(&mut self, limit: u32)
        requires { (need_of self.old ≤ limit) × (limit ≤ most_of self.old) }
        ensures limit { limit_of self.new ≡ limit }
        ensures same { (need_of self.new ≡ need_of self.old) × (most_of self.new ≡ most_of self.old) × (lent_of self.new ≡ lent_of self.old) × (kept_segments self.new ≡ kept_segments self.old) × (pass_of self.new ≡ pass_of self.old) }
        ensures local { (pool : Pool) → IsLocalOf pool self.old → IsGranted pool (pass_of self.old) limit → IsLocalOf pool self.new }
    {
        self.limit = limit;
    }

    /// Lends a segment, whose bytes are as its last holder left them. Takes a turn only where none is
    /// kept.
    pub fn request<R: Wait>(&mut self, rt: &R, pool: &Pool) -> Option<Segment>
        requires { IsLocalOf pool.now self.old }
        ensures local { IsLocalOf pool.now self.new × IsSameLocal self.old self.new }
        ensures requested { HasRequested pool.now self.old self.new result }
        ensures limited { IsLimited pool.now → (IsNone result ↔ (limit_of self.old ≤ lent_of self.old)) }
        ensures size { IfSome result (λ segment. length segment ≡ size_of pool.now) }
    {
        if self.lent >= self.limit {
            return None;
        }
        let segment = match self.idle.pop() {
            Some(segment) => segment,
            None => pool.claim(rt, &mut self.pass)?,
        };
        self.lent += 1;
        Some(segment)
    }

    /// How many segments are lent.
    pub fn lent(&self) -> u32
        ensures { result ≡ lent_of self.now }
    {
        self.lent
    }

    /// How many segments are kept, to be lent with no turn at the global pool.
    pub fn kept(&self) -> u32
        ensures kept { result ≡ kept_of self.now }
        ensures need { result ≡ need_of self.now - lent_of self.now }
    {
        // It is read so that its range is known: no more are kept than are needed.
        let _need = self.need;
        self.idle.as_slice().len() as u32
    }

    /// Takes a segment back that this pool has lent, or one of the same size in its place. Takes a turn
    /// where it goes to the global pool.
    pub fn give<R: Wait>(&mut self, rt: &R, pool: &Pool, segment: Segment)
        requires local { IsLocalOf pool.now self.old }
        requires lent { 0 < lent_of self.old }
        requires size { length segment ≡ size_of pool.now }
        ensures local { IsLocalOf pool.now self.new × IsSameLocal self.old self.new }
        ensures given { HasGiven self.old self.new segment }
    {
        if self.kept() + self.lent <= self.need {
            let Ok(()) = self.idle.push(segment) else {
                unreachable!()
            };
        } else {
            pool.give(rt, &mut self.pass, segment);
        }
        self.lent -= 1;
    }

    /// Gives the kept segments back, one turn each, and hands out the pass. While a segment is lent
    /// nothing is given back.
    pub fn close<R: Wait>(self, rt: &R, pool: &Pool) -> Result<PoolPass, LocalPool>
        requires { IsLocalOf pool.now self }
        ensures exact { IsErr result ↔ (0 < lent_of self) }
        ensures refused { IfErr result (λ local. local ≡ self) }
        ensures closed { IfOk result (λ pass. IsPassOf pool.now pass × (out pass ≡ 0)) }
        ensures given { IfOk result (λ pass. HasDone (replicate (kept_of self) Given) (pass_of self) pass) }
    {
        if self.lent > 0 {
            return Err(self);
        }
        let LocalPool { pass, idle, .. } = self;
        let mut pass = pass;
        give_all(rt, pool, &mut pass, idle);
        Ok(pass)
    }
}
