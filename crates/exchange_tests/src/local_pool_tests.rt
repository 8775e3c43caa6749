// What the clauses leave to examples: shares worked out by hand, and local pools through their lives.
ghost use Rattle.std.specs.Prelude.{◌≡◌, ◌+◌, ◌<◌, ◌≤◌, [], ◌∷◌, ◌++◌, All, IsTrue, length};
ghost use Rattle.turn_cell.specs.Passes as places;
ghost use Rattle.segment_pool.specs.Passes.{number, out};
ghost use Rattle.segment_pool.specs.Pools.{IsPassOf, limits_of, total_of};
ghost use Rattle.local_pool.specs.Helds.{local_of, pool_of};
ghost use Rattle.local_pool.specs.Locals.{IsLocalOf, lent_of, limit_of, most_of, need_of, pass_of};
ghost use Rattle.local_pool.specs.Shares.{IsWant, needs};

use fixtures::give_back;
use local_pool::{HeldPool, LocalFault, LocalPool, Want, give_in_turn, request_in_turn, share};
use segment_pool::{Counts, Pool, PoolPass};
use std::alloc::Global;
use std::process::Abort;
use std::sync::Wait;
use std::test::Fail;
use turn_cell::{Pass, TurnCell};

// Whether these may be shared out.
fn may_share(wants: &[Want], total: u32) -> bool
    ensures { IsTrue result → All IsWant wants.now × (needs wants.now ≤ total) }
{
    let mut left = total;
    for want in wants {
        if want.most < want.need || left < want.need {
            return false;
        }
        left -= want.need;
    }
    true
}

struct Case {
    wants: &'static [Want],
    total: u32,
    limits: &'static [u32],
}

static CASES: [Case; 15] = [
    Case {
        wants: &[],
        total: 7,
        limits: &[],
    },
    // Half of what is wished is there.
    Case {
        wants: &[Want { need: 2, most: 10 }, Want { need: 2, most: 10 }],
        total: 10,
        limits: &[5, 5],
    },
    // Nothing is wished.
    Case {
        wants: &[Want { need: 3, most: 3 }, Want { need: 4, most: 4 }],
        total: 20,
        limits: &[3, 4],
    },
    // More is there than is wished.
    Case {
        wants: &[Want { need: 1, most: 2 }, Want { need: 1, most: 3 }],
        total: 100,
        limits: &[2, 3],
    },
    // Nothing is left.
    Case {
        wants: &[Want { need: 2, most: 9 }, Want { need: 3, most: 5 }],
        total: 5,
        limits: &[2, 3],
    },
    // Rounding down leaves two.
    Case {
        wants: &[
            Want { need: 0, most: 1 },
            Want { need: 0, most: 1 },
            Want { need: 0, most: 1 },
        ],
        total: 2,
        limits: &[0, 0, 0],
    },
    // 4·3/8 and 4·5/8.
    Case {
        wants: &[Want { need: 1, most: 4 }, Want { need: 0, most: 5 }],
        total: 5,
        limits: &[2, 2],
    },
    // 1·8/16.
    Case {
        wants: &[Want { need: 2, most: 10 }, Want { need: 2, most: 10 }],
        total: 5,
        limits: &[2, 2],
    },
    // All that is left goes to the only one.
    Case {
        wants: &[Want { need: 3, most: 8 }],
        total: 5,
        limits: &[5],
    },
    Case {
        wants: &[Want { need: 3, most: 8 }],
        total: 100,
        limits: &[8],
    },
    Case {
        wants: &[Want { need: 0, most: 0 }, Want { need: 0, most: 10 }],
        total: 4,
        limits: &[0, 4],
    },
    // 6·0/12, 6·2/12 and 6·10/12.
    Case {
        wants: &[
            Want { need: 5, most: 5 },
            Want { need: 1, most: 3 },
            Want { need: 2, most: 12 },
        ],
        total: 14,
        limits: &[5, 2, 7],
    },
    // Two senders of three subpartitions, and a gate of two channels.
    Case {
        wants: &[
            Want { need: 4, most: 14 },
            Want { need: 4, most: 14 },
            Want { need: 4, most: 12 },
        ],
        total: 12,
        limits: &[4, 4, 4],
    },
    Case {
        wants: &[
            Want { need: 4, most: 14 },
            Want { need: 4, most: 14 },
            Want { need: 4, most: 12 },
        ],
        total: 26,
        limits: &[9, 9, 8],
    },
    // The largest numbers: (2^32 - 1)^2 / (2 (2^32 - 1)).
    Case {
        wants: &[
            Want {
                need: 0,
                most: 4_294_967_295,
            },
            Want {
                need: 0,
                most: 4_294_967_295,
            },
        ],
        total: 4_294_967_295,
        limits: &[2_147_483_647, 2_147_483_647],
    },
];

#[test]
fn shares_are_those_by_hand(rt: HostRuntime) -> Result<(), Fail> {
    for case in &CASES {
        let mut limits = vec![in rt.alloc(); 0; case.wants.len()]?;
        assert!(rt; may_share(case.wants, case.total));
        share(case.wants, case.total, &mut limits);
        assert_eq!(rt; &limits[..], case.limits);
    }
    Ok(())
}

// A local pool of need 3 is made, and another of need 2 is refused. The pool is then as before.
fn too_few<R: Wait + Abort>(
    rt: &R,
    alloc: Global,
    pool: &Pool,
    first: PoolPass,
    second: PoolPass,
) -> (PoolPass, PoolPass)
    requires first { IsPassOf pool.now first × (out first ≡ 0) }
    requires second { IsPassOf pool.now second × (out second ≡ 0) }
    requires limits { limits_of pool.now ≡ [] }
    ensures first { IsPassOf pool.now result.0 × (number result.0 ≡ number first) × (out result.0 ≡ 0) }
    ensures second { IsPassOf pool.now result.1 × (number result.1 ≡ number second) × (out result.1 ≡ 0) }
{
    let Ok(local) = LocalPool::new(rt, alloc, pool, first, 3, 8) else {
        panic!(rt; "no local pool")
    };
    let Err(
        LocalFault::TooFew {
            need,
            free,
            pass: second,
        },
    ) = LocalPool::new(rt, alloc, pool, second, 2, 8)
    else {
        panic!(rt; "a local pool of more than the pool")
    };
    assert_eq!(rt; (need, free), (2, 1));
    let mut second = second;
    assert_eq!(rt; pool.counts(rt, &mut second), Counts { free: 1, lent: 3 });
    let Ok(first) = local.close(rt, pool) else {
        panic!(rt; "nothing is lent")
    };
    assert_eq!(rt; pool.counts(rt, &mut second), Counts { free: 4, lent: 0 });
    (first, second)
}

// What is kept and what is lent.
fn held<R: Abort>(rt: &R, local: &LocalPool, kept: u32, lent: u32)
    ensures { lent_of local.now ≡ lent }
{
    assert_eq!(rt; (local.kept(), local.lent()), (kept, lent));
    assert!(rt; local.lent() == lent);
}

// Lends one and takes it back, as far as a limit of 1 and then of 3 lets it.
fn lend_and_take_back<R: Wait + Abort>(
    rt: &R,
    alloc: Global,
    pool: &Pool,
    pass: PoolPass,
) -> PoolPass
    requires pass { IsPassOf pool.now pass × (out pass ≡ 0) }
    requires limits { limits_of pool.now ≡ [] }
    ensures { IsPassOf pool.now result × (number result ≡ number pass) × (out result ≡ 0) }
{
    let Ok(mut local) = LocalPool::new(rt, alloc, pool, pass, 1, 3) else {
        panic!(rt; "no local pool")
    };
    held(rt, &local, 1, 0);
    let Some(one) = local.request(rt, pool) else {
        panic!(rt; "a segment was kept")
    };
    held(rt, &local, 0, 1);
    assert!(rt; local.request(rt, pool).is_none());
    local.set_limit(3);
    let Some(two) = local.request(rt, pool) else {
        panic!(rt; "a segment was free")
    };
    held(rt, &local, 0, 2);
    local.give(rt, pool, one);
    held(rt, &local, 0, 1);
    let Err(mut local) = local.close(rt, pool) else {
        panic!(rt; "a segment is lent")
    };
    local.give(rt, pool, two);
    held(rt, &local, 1, 0);
    let Ok(pass) = local.close(rt, pool) else {
        panic!(rt; "nothing is lent")
    };
    pass
}

// One turn lends a segment, the next takes it back.
fn lend_in_a_turn<'a, R: Wait + Abort>(
    rt: &R,
    cell: &TurnCell<HeldPool<'a>>,
    place: Pass<HeldPool<'a>>,
) -> Pass<HeldPool<'a>>
    requires { places.IsPassOf cell.now place }
    ensures { places.IsPassOf cell.now result × (places.number result ≡ places.number place.entry) }
{
    let (place, lent) = request_in_turn(rt, cell, place);
    let Some(segment) = lent else {
        panic!(rt; "a segment was kept")
    };
    let (shared, turn) = cell.enter_owned(rt, place);
    assert_eq!(rt; shared.lent(), 1);
    let place = turn.leave_as_is(shared);
    give_in_turn(rt, cell, place, segment)
}

fn lend_by_turns<R: Wait + Abort>(rt: &R, alloc: Global, pool: &Pool, pass: PoolPass) -> PoolPass
    requires pass { IsPassOf pool.now pass × (out pass ≡ 0) }
    requires limits { limits_of pool.now ≡ [] }
    ensures { IsPassOf pool.now result × (number result ≡ number pass) × (out result ≡ 0) }
{
    let Ok(local) = LocalPool::new(rt, alloc, pool, pass, 2, 2) else {
        panic!(rt; "no local pool")
    };
    let Ok((cell, mut places)) = TurnCell::new(alloc, HeldPool::new(pool, local), 1) else {
        panic!(rt; "no cell")
    };
    let place = places.take_last();
    let place = lend_in_a_turn(rt, &cell, place);
    give_back(&mut places, place);
    let local = cell.close(places).into_local();
    let Ok(pass) = local.close(rt, pool) else {
        panic!(rt; "nothing is lent")
    };
    pass
}

#[test]
fn local_pools_live_in_a_pool_of_four(rt: HostRuntime) {
    let Ok((pool, mut passes)) = Pool::new(rt.alloc(), 4, 64, 2) else {
        panic!(rt; "no memory")
    };
    let second = passes.take_last();
    let first = passes.take_last();
    let (first, second) = too_few(&rt, rt.alloc(), &pool, first, second);
    let first = lend_and_take_back(&rt, rt.alloc(), &pool, first);
    let second = lend_by_turns(&rt, rt.alloc(), &pool, second);
    give_back(&mut passes, first);
    give_back(&mut passes, second);
    match pool.close(passes) {
        Ok(total) => assert_eq!(rt; total, 4),
        Err(_still_lent) => unreachable!(),
    }
}
