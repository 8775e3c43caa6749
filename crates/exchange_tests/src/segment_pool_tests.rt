// Pools that lend all they have, to one pass, to passes with limits, and to threads.
ghost use Rattle.std.specs.Prelude.{◌≡◌, ◌+◌, ◌<◌, ◌≤◌, [], ◌∷◌, ◌++◌, length, IfSome};
ghost use Rattle.std.specs.List.{sum_by};
ghost use Rattle.segment_pool.specs.Counting.{claim_entries};
ghost use Rattle.segment_pool.specs.Passes.{number, out};
ghost use Rattle.segment_pool.specs.Pools.{AreInOrder, IsLimited, IsPassOf, limit_of, limits_of, size_of};

use fixtures::give_back;
use flow_defs::ListOf;
use segment_pool::{Counts, Pool, PoolPass, Segment, StillLent};
use std::alloc::Global;
use std::sync::Wait;
use std::test::Fail;
use std::thread::{Threads, join};

// Deals the last of the passes.
fn deal(pool: &Pool, passes: &mut ListOf<PoolPass>) -> PoolPass
    requires { AreInOrder pool.now passes.old.items × (0 < length passes.old.items) }
    ensures pass { IsPassOf pool.now result × (number result ≡ length passes.new.items) }
    ensures rest { AreInOrder pool.now passes.new.items
        × (length passes.old.items ≡ length passes.new.items + 1) }
    ensures room { passes.new.room ≡ passes.old.room + 1 }
    ensures out { sum_by out passes.old.items ≡ sum_by out passes.new.items + out result }
{
    passes.take_last()
}

// Takes a pass back in its place.
fn take_back(pool: &Pool, passes: &mut ListOf<PoolPass>, pass: PoolPass)
    requires passes { AreInOrder pool.now passes.old.items × (0 < passes.old.room) }
    requires pass { IsPassOf pool.now pass × (number pass ≡ length passes.old.items) }
    ensures all { AreInOrder pool.now passes.new.items
        × (length passes.new.items ≡ length passes.old.items + 1) }
    ensures room { passes.old.room ≤ passes.new.room + 1 }
    ensures out { sum_by out passes.new.items ≡ sum_by out passes.old.items + out pass }
{
    give_back(passes, pass);
}

// Gives back what a claim answered.
fn give_any<R: Wait>(rt: &R, pool: &Pool, pass: &mut PoolPass, segment: Option<Segment>)
    requires pass { IsPassOf pool.now pass.old × (length (claim_entries segment) ≤ out pass.old) }
    requires size { IfSome segment (λ s. length s ≡ size_of pool.now) }
    ensures pass { IsPassOf pool.now pass.new × (number pass.new ≡ number pass.old) }
    ensures out { out pass.old ≡ out pass.new + length (claim_entries segment) }
{
    if let Some(segment) = segment {
        pool.give(rt, pass, segment);
    }
}

// Claims on a pass below its limit, which always gets a segment.
fn claim_within<R: Wait>(rt: &R, pool: &Pool, pass: &mut PoolPass) -> Segment
    requires pass { IsPassOf pool.now pass.old }
    requires limit { IsLimited pool.now × (out pass.old < limit_of pool.now pass.old) }
    ensures pass { IsPassOf pool.now pass.new × (number pass.new ≡ number pass.old) }
    ensures out { out pass.new ≡ out pass.old + 1 }
    ensures size { length result ≡ size_of pool.now }
{
    pool.claim(rt, pass).unwrap()
}

// What three claims answer, what is then lent, and the total.
type Lending = ([bool; 3], u32, u32);

// Claims three times on the only pass of a pool of two.
fn claim_thrice<R: Wait>(rt: &R, alloc: Global) -> Option<Lending> {
    let Ok((pool, mut passes)) = Pool::new(alloc, 2, 64, 1) else {
        return None;
    };
    let mut pass = deal(&pool, &mut passes);
    let first = pool.claim(rt, &mut pass);
    let second = pool.claim(rt, &mut pass);
    let third = pool.claim(rt, &mut pass);
    let answers = [first.is_some(), second.is_some(), third.is_some()];
    take_back(&pool, &mut passes, pass);
    let closed = pool.close(passes);
    let Err(still) = closed else { return None };
    let StillLent {
        pool,
        mut passes,
        lent,
    } = still;
    let mut pass = deal(&pool, &mut passes);
    give_any(rt, &pool, &mut pass, first);
    give_any(rt, &pool, &mut pass, second);
    give_any(rt, &pool, &mut pass, third);
    take_back(&pool, &mut passes, pass);
    let closed = pool.close(passes);
    let Ok(total) = closed else { unreachable!() };
    Some((answers, lent, total))
}

// Claims all that two passes may claim.
fn claim_limits<R: Wait>(rt: &R, alloc: Global) -> Option<(Counts, u32)> {
    let Ok((pool, mut passes)) = Pool::new_limited(alloc, 5, 64, &[2, 3]) else {
        return None;
    };
    let mut second = deal(&pool, &mut passes);
    let mut first = deal(&pool, &mut passes);
    let a = claim_within(rt, &pool, &mut first);
    let b = claim_within(rt, &pool, &mut first);
    let c = claim_within(rt, &pool, &mut second);
    let d = claim_within(rt, &pool, &mut second);
    let e = claim_within(rt, &pool, &mut second);
    let counts = pool.counts(rt, &mut first);
    pool.give(rt, &mut first, a);
    pool.give(rt, &mut first, b);
    pool.give(rt, &mut second, c);
    pool.give(rt, &mut second, d);
    pool.give(rt, &mut second, e);
    take_back(&pool, &mut passes, first);
    take_back(&pool, &mut passes, second);
    let closed = pool.close(passes);
    let Ok(total) = closed else { unreachable!() };
    Some((counts, total))
}

// Writes the last byte of a segment, and reads it.
fn write_and_read<R: Wait>(rt: &R, alloc: Global) -> Option<u8> {
    let Ok((pool, mut passes)) = Pool::new_limited(alloc, 1, 64, &[1]) else {
        return None;
    };
    let mut pass = deal(&pool, &mut passes);
    let mut segment = claim_within(rt, &pool, &mut pass);
    segment.bytes_mut()[63] = 7;
    let byte = segment.bytes()[63];
    pool.give(rt, &mut pass, segment);
    take_back(&pool, &mut passes, pass);
    let closed = pool.close(passes);
    let Ok(_) = closed else { unreachable!() };
    Some(byte)
}

// Claims and gives so often.
fn claim_and_give<R: Wait>(rt: &R, pool: &Pool, pass: PoolPass, times: u32) -> PoolPass
    requires { IsPassOf pool.now pass × (out pass ≡ 0) × (limits_of pool.now ≡ []) }
    ensures { IsPassOf pool.now result × (number result ≡ number pass) × (out result ≡ 0) }
{
    let mut pass = pass;
    for _round in 0..times {
        let segment = pool.claim(rt, &mut pass);
        give_any(rt, pool, &mut pass, segment);
    }
    pass
}

// The same on two passes, each in a thread of its own.
fn in_two_threads<R: Threads + Wait + Sync>(
    rt: &R,
    pool: &Pool,
    first: PoolPass,
    second: PoolPass,
    times: u32,
) -> (PoolPass, PoolPass)
    requires first { IsPassOf pool.now first × (out first ≡ 0) }
    requires second { IsPassOf pool.now second × (out second ≡ 0) }
    requires no_limits { limits_of pool.now ≡ [] }
    ensures first { IsPassOf pool.now result.0
        × (number result.0 ≡ number first) × (out result.0 ≡ 0) }
    ensures second { IsPassOf pool.now result.1
        × (number result.1 ≡ number second) × (out result.1 ≡ 0) }
{
    join(
        rt,
        || -> PoolPass
            requires { IsPassOf pool.now first × (out first ≡ 0) × (limits_of pool.now ≡ []) }
            ensures { IsPassOf pool.entry.now result × (number result ≡ number first) × (out result ≡ 0) }
        { claim_and_give(rt, pool, first, times) },
        || -> PoolPass
            requires { IsPassOf pool.now second × (out second ≡ 0) × (limits_of pool.now ≡ []) }
            ensures { IsPassOf pool.entry.now result × (number result ≡ number second) × (out result ≡ 0) }
        { claim_and_give(rt, pool, second, times) },
    )
}

// The same on the four passes of a pool of three.
fn in_four_threads<R: Threads + Wait + Sync>(rt: &R, alloc: Global, times: u32) -> Option<u32> {
    let Ok((pool, mut passes)) = Pool::new(alloc, 3, 64, 4) else {
        return None;
    };
    let d = deal(&pool, &mut passes);
    let c = deal(&pool, &mut passes);
    let b = deal(&pool, &mut passes);
    let a = deal(&pool, &mut passes);
    let ((a, b), (c, d)) = join(
        rt,
        || -> (PoolPass, PoolPass)
            requires { IsPassOf pool a × (out a ≡ 0)
                × IsPassOf pool b × (out b ≡ 0) × (limits_of pool ≡ []) }
            ensures { IsPassOf pool result.0 × (number result.0 ≡ number a) × (out result.0 ≡ 0)
                × IsPassOf pool result.1 × (number result.1 ≡ number b) × (out result.1 ≡ 0) }
        { in_two_threads(rt, &pool, a, b, times) },
        || -> (PoolPass, PoolPass)
            requires { IsPassOf pool c × (out c ≡ 0)
                × IsPassOf pool d × (out d ≡ 0) × (limits_of pool ≡ []) }
            ensures { IsPassOf pool result.0 × (number result.0 ≡ number c) × (out result.0 ≡ 0)
                × IsPassOf pool result.1 × (number result.1 ≡ number d) × (out result.1 ≡ 0) }
        { in_two_threads(rt, &pool, c, d, times) },
    );
    take_back(&pool, &mut passes, a);
    take_back(&pool, &mut passes, b);
    take_back(&pool, &mut passes, c);
    take_back(&pool, &mut passes, d);
    let closed = pool.close(passes);
    let Ok(total) = closed else { unreachable!() };
    Some(total)
}

#[test]
fn a_pool_of_two_lends_two(rt: HostRuntime) -> Result<(), Fail> {
    let (answers, lent, total) = claim_thrice(&rt, rt.alloc()).ok_or("no memory")?;
    assert_eq!(rt; answers, [true, true, false]);
    assert_eq!(rt; lent, 2);
    assert_eq!(rt; total, 2);
    Ok(())
}

#[test]
fn passes_with_limits_get_all(rt: HostRuntime) -> Result<(), Fail> {
    let (counts, total) = claim_limits(&rt, rt.alloc()).ok_or("no memory")?;
    assert_eq!(rt; counts, Counts { free: 0, lent: 5 });
    assert_eq!(rt; total, 5);
    Ok(())
}

#[test]
fn a_segment_is_written_and_read(rt: HostRuntime) -> Result<(), Fail> {
    let byte = write_and_read(&rt, rt.alloc()).ok_or("no memory")?;
    assert_eq!(rt; byte, 7);
    Ok(())
}

#[test]
fn four_threads_share_three_segments(rt: HostRuntime) -> Result<(), Fail> {
    let total = in_four_threads(&rt, rt.alloc(), 1_000).ok_or("no memory")?;
    assert_eq!(rt; total, 3);
    Ok(())
}
