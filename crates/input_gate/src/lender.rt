// The gate's pool, from which its channels are given floating segments.
ghost use Rattle.std.specs.Prelude.{◌≡◌, [], ◌∷◌, ◌++◌, length, IfSome};
ghost use Rattle.local_pool.specs.declared.entry.PoolEntry.TheVariants.{Returned};
ghost use Rattle.local_pool.specs.Lending.{lent_in_turn};
ghost use Rattle.input_gate.specs.Lanes.{IsLender, lent_size};
ghost use Rattle.input_gate.specs.Segments.{given_back, told_by_lender};

use local_pool::{HeldPool, give_in_turn, request_in_turn};
use segment_pool::Segment;
use std::sync::Wait;
use turn_cell::{Pass, TurnCell};

/// The cell of the gate's pool, with the gate's pass of it, which is away only in a turn.
#[derive(Drop)]
pub(crate) struct Lender<'a, 'p> {
    pub(crate) cell: &'a TurnCell<HeldPool<'p>>,
    pub(crate) pass: Option<Pass<HeldPool<'p>>>,
}

/// Asks the pool for a segment.
pub(crate) fn request<R: Wait>(rt: &R, lender: &mut Lender<'_, '_>) -> Option<Segment>
    requires { IsLender lender.old }
    ensures lender { IsLender lender.new × (lender.new.cell ≡ lender.old.cell) }
    ensures size { IfSome result (λ segment. length segment ≡ lent_size lender.old) }
    ensures told { told_by_lender lender.new ≡ told_by_lender lender.old ++ lent_in_turn result }
{
    let Some(pass) = lender.pass.take() else {
        unreachable!()
    };
    let (pass, segment) = request_in_turn(rt, lender.cell, pass);
    lender.pass = Some(pass);
    segment
}

/// Gives a segment back to the pool. Where none is lent there it is dropped.
pub(crate) fn give<R: Wait>(rt: &R, lender: &mut Lender<'_, '_>, segment: Segment)
    requires lender { IsLender lender.old }
    requires size { length segment ≡ lent_size lender.old }
    ensures lender { IsLender lender.new × (lender.new.cell ≡ lender.old.cell) }
    ensures told { told_by_lender lender.new ≡ told_by_lender lender.old ++ Returned ∷ [] }
{
    let Some(pass) = lender.pass.take() else {
        unreachable!()
    };
    lender.pass = Some(give_in_turn(rt, lender.cell, pass, segment));
}

/// Gives back the segment that a channel set free, where it did.
pub(crate) fn give_free<R: Wait>(rt: &R, lender: &mut Lender<'_, '_>, free: Option<Segment>)
    requires lender { IsLender lender.old }
    requires size { IfSome free (λ segment. length segment ≡ lent_size lender.old) }
    ensures lender { IsLender lender.new × (lender.new.cell ≡ lender.old.cell) }
    ensures told { told_by_lender lender.new ≡ told_by_lender lender.old ++ given_back free }
{
    if let Some(segment) = free {
        give(rt, lender, segment);
    }
}
