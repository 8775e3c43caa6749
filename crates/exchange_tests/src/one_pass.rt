// A pool with one pass: a segment is claimed, and the pool is closed.
ghost use Rattle.std.specs.Prelude.{◌≡◌, ◌+◌, ◌<◌, [], ◌∷◌, ◌++◌, length};
ghost use Rattle.segment_pool.specs.Passes.{number, out};
ghost use Rattle.segment_pool.specs.Pools.{IsPassOf, limits_of, passes_of, size_of};

use flow_defs::ListOf;
use segment_pool::{Pool, PoolPass, Segment};
use std::process::Abort;
use std::sync::Wait;

// Claims a segment, which is there.
pub(crate) fn claim<R: Wait + Abort>(rt: &R, pool: &Pool, pass: &mut PoolPass) -> Segment
    requires { IsPassOf pool.now pass.old × (limits_of pool.now ≡ []) }
    ensures pass { IsPassOf pool.now pass.new × (number pass.new ≡ number pass.old) }
    ensures out { out pass.new ≡ out pass.old + 1 }
    ensures size { length result ≡ size_of pool.now }
{
    pool.claim(rt, pass).expect(rt, "a segment is free")
}

// Closes a pool of so many segments and one pass.
pub(crate) fn close<R: Abort>(
    rt: &R,
    pool: Pool,
    passes: ListOf<PoolPass>,
    pass: PoolPass,
    segments: u32,
)
    requires pass { IsPassOf pool pass × (number pass ≡ 0) × (passes_of pool ≡ 1) }
    requires passes { (passes.items ≡ []) × (0 < passes.room) }
{
    let mut passes = passes;
    assert!(rt; passes.push(pass).is_ok());
    match pool.close(passes) {
        Ok(total) => assert_eq!(rt; total, segments),
        Err(_) => panic!(rt; "a segment is lent"),
    }
}
