// Segments of the tasks' local pools, in turns of their cells.
ghost use Rattle.std.specs.Prelude.{◌≡◌, ◌<◌, ◌≤◌, ◌++◌, [], ◌∷◌, length, slice_get, ℕ, Some, IfSome};
ghost use Rattle.std.specs.List.{swap};
ghost use Rattle.local_pool.specs.declared.entry.PoolEntry.TheVariants.{Returned};
ghost use Rattle.local_pool.specs.Lending.{lent_in_turn};
ghost use Rattle.conn_parts.specs.Shares.{AreOf, GrewAt, HavePoolSize, numbers_of};
ghost use Rattle.conn_parts.specs.Places.{IsWithout};

use flow_defs::ListOf;
use local_pool::{HeldPool, give_in_turn, request_in_turn};
use segment_pool::Segment;
use std::sync::Wait;
use turn_cell::{Pass, TurnCell};

/// Gives a segment back to the local pool at a place. Where none is lent there, it is dropped.
pub fn give_segment<'p, R: Wait>(
    rt: &R,
    cells: &[TurnCell<HeldPool<'p>>],
    passes: &mut ListOf<Pass<HeldPool<'p>>>,
    place: usize,
    segment: Segment,
)
    requires passes { AreOf cells.now passes.old.items }
    requires within { place < length cells.now }
    requires size { HavePoolSize (length segment) cells.now }
    ensures passes { AreOf cells.now passes.new.items }
    ensures numbers { numbers_of passes.new.items ≡ numbers_of passes.old.items }
    ensures returned { GrewAt place (Returned ∷ []) passes.old.items passes.new.items }
{
    let pass = take_out(passes, place);
    let pass = give_in_turn(rt, &cells[place], pass, segment);
    put_back(passes, place, pass);
}

/// Asks the local pool at a place for a segment.
pub fn request_segment<'p, R: Wait>(
    rt: &R,
    cells: &[TurnCell<HeldPool<'p>>],
    passes: &mut ListOf<Pass<HeldPool<'p>>>,
    place: usize,
) -> Option<Segment>
    requires passes { AreOf cells.now passes.old.items }
    requires within { place < length cells.now }
    ensures passes { AreOf cells.now passes.new.items }
    ensures numbers { numbers_of passes.new.items ≡ numbers_of passes.old.items }
    ensures lent { GrewAt place (lent_in_turn result) passes.old.items passes.new.items }
    ensures size { (size : ℕ) → HavePoolSize size cells.now → IfSome result (λ segment. length segment ≡ size) }
{
    let pass = take_out(passes, place);
    let (pass, segment) = request_in_turn(rt, &cells[place], pass);
    put_back(passes, place, pass);
    segment
}

// Takes the item at a place out of a list. The last one stands there until it is put back.
fn take_out<T: Drop>(list: &mut ListOf<T>, place: usize) -> T
    requires { place < length list.old.items }
    ensures item { slice_get list.old.items place ≡ Some result }
    ensures rest { IsWithout list.old.items place list.new.items }
    ensures room { 0 < list.new.room }
{
    let last = list.as_slice().len() - 1;
    list.as_mut_slice().swap(place, last);
    list.take_last()
}

// Puts an item back into its place.
fn put_back<T: Drop>(list: &mut ListOf<T>, place: usize, item: T)
    requires place { place ≤ length list.old.items }
    requires room { 0 < list.old.room }
    ensures { list.new.items ≡ swap (list.old.items ++ item ∷ []) place (length list.old.items) }
{
    let last = list.as_slice().len();
    let Ok(()) = list.push(item) else {
        unreachable!()
    };
    list.as_mut_slice().swap(place, last);
}
