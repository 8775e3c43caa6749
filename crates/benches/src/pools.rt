// Pools.
ghost use Rattle.std.specs.Prelude.{◌≡◌, ◌≤◌, [], IfSome};
ghost use Rattle.segment_pool.specs.Pools.{IsPassOf, limits_of, size_of};
ghost use Rattle.flow_defs.specs.Limits.{segments_max, segment_min};

use segment_pool::{Pool, PoolPass, SEGMENT_MAX, SEGMENT_MIN, SEGMENTS_MAX};
use std::alloc::Global;
use std::sync::Wait;

// Opens a pool of so many segments of `size` bytes, and closes it. Returns how many there were.
pub fn open<R: Wait>(_rt: &R, alloc: Global, total: u32, size: u64) -> Option<u64> {
    if total == 0 || total > SEGMENTS_MAX {
        return None;
    }
    let size = size as usize;
    if size < SEGMENT_MIN || size > SEGMENT_MAX {
        return None;
    }
    let Ok((pool, passes)) = Pool::new(alloc, total, size as u32, 1) else {
        return None;
    };
    let closed = pool.close(passes).ok()?;
    Some(u64::from(closed))
}

// A pool of so many segments of 64 bytes, and its pass.
pub fn small_pool(alloc: Global, total: u32) -> Option<(Pool, PoolPass)>
    requires { (1 ≤ total) × (total ≤ segments_max) }
    ensures pass { IfSome result (λ r. IsPassOf r.0 r.1) }
    ensures opened { IfSome result (λ r. (limits_of r.0 ≡ []) × (size_of r.0 ≡ segment_min)) }
{
    let Ok((pool, mut passes)) = Pool::new(alloc, total, SEGMENT_MIN as u32, 1) else {
        return None;
    };
    let pass = passes.pop()?;
    Some((pool, pass))
}

// Claims a segment of 64 bytes and gives it back, so many times. Returns how often there was one.
pub fn claim<R: Wait>(rt: &R, alloc: Global, total: u32, times: u64) -> Option<u64> {
    if total == 0 || total > SEGMENTS_MAX {
        return None;
    }
    let (pool, mut pass) = small_pool(alloc, total)?;
    let mut sum: u64 = 0;
    for _turn in 0..times {
        if let Some(segment) = pool.claim(rt, &mut pass) {
            pool.give(rt, &mut pass, segment);
            sum = sum.wrapping_add(1);
        }
    }
    Some(sum)
}
