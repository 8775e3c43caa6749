// The turns of a pass at the cell of a local pool.
ghost use Rattle.std.specs.Prelude.{◌≡◌, ◌<◌, ◌≤◌, [], ◌∷◌, ◌++◌, length, IsNone, IfSome};
ghost use Rattle.segment_pool.specs.Pools.{IsLimited, size_of};
ghost use Rattle.turn_cell.specs.History.{StartsWith};
ghost use Rattle.turn_cell.specs.Passes.{IsPassOf, opened_with, mine, number, seen};
ghost use Rattle.local_pool.specs.declared.entry.PoolEntry.TheVariants.{Returned};
ghost use Rattle.local_pool.specs.Helds.{local_of, pool_of};
ghost use Rattle.local_pool.specs.Lending.{lent_by, lent_in_turn};
ghost use Rattle.local_pool.specs.Locals.{limit_of};

use crate::held::HeldPool;
use segment_pool::Segment;
use std::marker::Brand;
use std::sync::Wait;
use turn_cell::{Pass, TurnCell};

/// Asks a local pool for a segment in a turn, and hands the pass back.
pub fn request_in_turn<'p, R: Wait>(
    rt: &R,
    cell: &TurnCell<HeldPool<'p>>,
    pass: Pass<HeldPool<'p>>,
) -> (Pass<HeldPool<'p>>, Option<Segment>)
    requires { IsPassOf cell.now pass }
    ensures pass { IsPassOf cell.now result.0 × (number result.0 ≡ number pass.entry) × StartsWith (seen result.0) (seen pass.entry) }
    ensures lent { mine result.0 ≡ mine pass.entry ++ lent_in_turn result.1 }
    ensures limited { IsLimited (pool_of (opened_with cell.now)) → IsNone result.1 → limit_of (local_of (opened_with cell.now)) ≤ lent_by (opened_with cell.now) (seen result.0) }
    ensures size { IfSome result.1 (λ segment. length segment ≡ size_of (pool_of (opened_with cell.now))) }
{
    let (mut pool, turn) = cell.enter_owned(rt, pass);
    match pool.request(rt) {
        Some(segment) => (turn.leave::<Brand>(pool), Some(segment)),
        None => (turn.leave_as_is(pool), None),
    }
}

/// Gives a segment back to a local pool in a turn, and hands the pass back. Where the pool has lent
/// none, the segment is dropped.
pub fn give_in_turn<'p, R: Wait>(
    rt: &R,
    cell: &TurnCell<HeldPool<'p>>,
    pass: Pass<HeldPool<'p>>,
    segment: Segment,
) -> Pass<HeldPool<'p>>
    requires pass { IsPassOf cell.now pass }
    requires size { length segment ≡ size_of (pool_of (opened_with cell.now)) }
    ensures pass { IsPassOf cell.now result × (number result ≡ number pass.entry) × StartsWith (seen result) (seen pass.entry) }
    ensures returned { mine result ≡ mine pass.entry ++ Returned ∷ [] }
{
    let (mut pool, turn) = cell.enter_owned(rt, pass);
    if pool.lent() > 0 {
        pool.give(rt, segment);
    }
    turn.leave::<Brand>(pool)
}
