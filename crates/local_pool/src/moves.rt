// How several segments are claimed and given back, one turn each.
ghost use Rattle.std.specs.Prelude.{◌≡◌, ◌+◌, ◌<◌, ◌≤◌, [], ◌++◌, length, replicate};
ghost use Rattle.std.specs.List.{All};
ghost use Rattle.segment_pool.specs.declared.stock.Dealing.TheVariants.{Claimed, Given};
ghost use Rattle.segment_pool.specs.Passes.{out};
ghost use Rattle.segment_pool.specs.Pools.{IsLimited, IsPassOf, limit_of, size_of};
ghost use Rattle.local_pool.specs.Moves.{FoundNone, HasDone};

use flow_defs::ListOf;
use segment_pool::{Pool, PoolPass, Segment};
use std::sync::Wait;

// Claims so many segments, or as many as come before the first claim that finds none.
pub(crate) fn claim_up_to<R: Wait>(
    rt: &R,
    pool: &Pool,
    pass: &mut PoolPass,
    need: u32,
    segments: &mut ListOf<Segment>,
)
    requires pass { IsPassOf pool.now pass.old }
    requires limit { IsLimited pool.now → out pass.old + need ≤ limit_of pool.now pass.old }
    requires room { (segments.old.items ≡ []) × (need ≤ segments.old.room) }
    ensures pass { IsPassOf pool.now pass.new }
    ensures done { HasDone (replicate (length segments.new.items) Claimed) pass.old pass.new }
    ensures out { out pass.new ≡ out pass.old + length segments.new.items }
    ensures all { (length segments.new.items ≤ need) × (need ≤ length segments.new.items + segments.new.room) }
    ensures none { length segments.new.items < need → FoundNone pool.now (length segments.new.items) pass.old pass.new }
    ensures limited { IsLimited pool.now → length segments.new.items ≡ need }
    ensures sizes { All (λ segment. length segment ≡ size_of pool.now) segments.new.items }
{
    for _claim in 0..need {
        let Some(segment) = pool.claim(rt, pass) else {
            return;
        };
        let Ok(()) = segments.push(segment) else {
            unreachable!()
        };
    }
}

// Gives all these segments back.
pub(crate) fn give_all<R: Wait>(rt: &R, pool: &Pool, pass: &mut PoolPass, segments: ListOf<Segment>)
    requires pass { IsPassOf pool.now pass.old }
    requires out { length segments.items ≤ out pass.old }
    requires sizes { All (λ segment. length segment ≡ size_of pool.now) segments.items }
    ensures pass { IsPassOf pool.now pass.new }
    ensures done { HasDone (replicate (length segments.items) Given) pass.old pass.new }
    ensures out { out pass.old ≡ out pass.new + length segments.items }
{
    let mut rest = segments;
    while let Some(segment) = rest.pop() {
        pool.give(rt, pass, segment);
    }
}
