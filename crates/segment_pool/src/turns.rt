// The turns of a pass at its pool's cell.
ghost use Rattle.std.specs.Prelude.{◌≡◌, ◌+◌, ◌<◌, ◌≤◌, ◌↔◌, [], ◌∷◌, length, slice_index, IsSome, IsNone, IfSome};
ghost use Rattle.turn_cell.specs.Passes.{IsPassOf, mine, number};
ghost use Rattle.segment_pool.specs.declared.stock.Dealing.TheVariants.{Given};
ghost use Rattle.segment_pool.specs.Counting.{balance, claim_entries, free_in, lent_in};
ghost use Rattle.segment_pool.specs.Pools.{IsLimited, limits_of, size_of, total_of};
ghost use Rattle.segment_pool.specs.Turns.{HasTurned};

use crate::pool::Pool;
use crate::segment::Segment;
use crate::stock::Stock;
use std::marker::Brand;
use std::sync::Wait;
use turn_cell::Pass;

// Takes a segment out of the stock, if one is there.
pub(crate) fn take_out<R: Wait>(rt: &R, pool: &Pool, pass: &mut Pass<Stock>) -> Option<Segment>
    requires pass { IsPassOf pool.now.cell pass.old }
    requires limit { IsLimited pool.now
        → balance (mine pass.old) < slice_index (limits_of pool.now) (number pass.old) }
    ensures pass { IsPassOf pool.now.cell pass.new }
    ensures turn { HasTurned (claim_entries result) pass.old pass.new
        (λ history. IsNone result ↔ (free_in (total_of pool.now) history ≡ 0)) }
    ensures limited { IsLimited pool.now → IsSome result }
    ensures out { balance (mine pass.new) ≡ balance (mine pass.old) + length (claim_entries result) }
    ensures few { balance (mine pass.new) ≤ total_of pool.now }
    ensures size { IfSome result (λ segment. length segment ≡ size_of pool.now) }
{
    let mut turn = pool.cell.enter(rt, pass);
    match turn.state().free.pop() {
        Some(segment) => {
            turn.leave::<Brand>();
            Some(segment)
        }
        None => {
            turn.leave_as_is();
            None
        }
    }
}

// Puts a segment into the stock.
pub(crate) fn put_in<R: Wait>(rt: &R, pool: &Pool, pass: &mut Pass<Stock>, segment: Segment)
    requires pass { IsPassOf pool.now.cell pass.old }
    requires out { 0 < balance (mine pass.old) }
    requires size { length segment ≡ size_of pool.now }
    ensures pass { IsPassOf pool.now.cell pass.new }
    ensures turn { HasTurned (Given ∷ []) pass.old pass.new
        (λ history. 0 < lent_in history) }
    ensures out { balance (mine pass.old) ≡ balance (mine pass.new) + 1 }
{
    let mut turn = pool.cell.enter(rt, pass);
    let Ok(()) = turn.state().free.push(segment) else {
        unreachable!()
    };
    turn.leave::<Brand>();
}

// Counts the segments of the stock.
pub(crate) fn count_free<R: Wait>(rt: &R, pool: &Pool, pass: &mut Pass<Stock>) -> u32
    requires { IsPassOf pool.now.cell pass.old }
    ensures pass { IsPassOf pool.now.cell pass.new }
    ensures turn { HasTurned [] pass.old pass.new
        (λ history. (result ≡ free_in (total_of pool.now) history)
        × (result + lent_in history ≡ total_of pool.now)) }
{
    let mut turn = pool.cell.enter(rt, pass);
    let free = turn.state().free.as_slice().len() as u32;
    turn.leave_as_is();
    free
}
