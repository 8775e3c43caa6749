// How a pool's passes are made of those of its cell, and gathered again.
ghost use Rattle.std.specs.Prelude.{◌≡◌, ◌+◌, ◌<◌, ◌≤◌, [], ◌∷◌, ◌++◌, length, reverse};
ghost use Rattle.std.specs.List.{All};
ghost use Rattle.segment_pool.specs.Places.{FirstHasPlaces, IsNew, inner};

use crate::pass::PoolPass;
use crate::stock::Stock;
use flow_defs::ListOf;
use std::alloc::Global;
use turn_cell::Pass;

fn reverse_all<T>(items: &mut ListOf<T>)
    ensures items { items.new.items ≡ reverse items.old.items }
    ensures room { items.new.room ≡ items.old.room }
{
    items.as_mut_slice().reverse();
}

// Adds an item at the end, where there is room.
pub(crate) fn add<T: Drop>(items: &mut ListOf<T>, item: T)
    requires { 0 < items.old.room }
    ensures items { items.new.items ≡ items.old.items ++ item ∷ [] }
    ensures room { items.old.room ≤ items.new.room + 1 }
{
    let Ok(()) = items.push(item) else {
        unreachable!()
    };
}

// A pass with nothing out.
fn new_pass(pass: Pass<Stock>, places: ListOf<Pass<Stock>>) -> PoolPass
    ensures { result ≡ record { pass = pass; held = 0; places = places } }
{
    PoolPass {
        pass,
        held: 0,
        places,
    }
}

// Makes passes of the pool of those of its cell, in order, and gives the first one all places.
pub(crate) fn passes_of(
    alloc: Global,
    all: ListOf<Pass<Stock>>,
    passes: ListOf<PoolPass>,
) -> ListOf<PoolPass>
    requires some { 0 < length all.items }
    requires room { (passes.items ≡ []) × (length all.items ≤ passes.room) }
    ensures inner { inner result.items ≡ all.items }
    ensures new { All IsNew result.items }
    ensures places { FirstHasPlaces (length all.items) result.items }
{
    let mut rest = all;
    let mut passes = passes;
    let mut lowest = rest.pop().unwrap();
    while let Some(lower) = rest.pop() {
        add(&mut passes, new_pass(lowest, ListOf::new(alloc)));
        lowest = lower;
    }
    add(&mut passes, new_pass(lowest, rest));
    reverse_all(&mut passes);
    passes
}

// Gathers the passes of the cell, in order, in the places of the first one.
pub(crate) fn gathered(passes: ListOf<PoolPass>) -> ListOf<Pass<Stock>>
    requires some { 0 < length passes.items }
    requires new { All (λ pass. length pass.places.items ≡ 0) passes.items }
    requires places { FirstHasPlaces (length passes.items) passes.items }
    ensures { result.items ≡ inner passes.items }
{
    let mut rest = passes;
    reverse_all(&mut rest);
    let PoolPass {
        pass: first,
        held: _,
        mut places,
    } = rest.pop().unwrap();
    add(&mut places, first);
    while let Some(PoolPass { pass, .. }) = rest.pop() {
        add(&mut places, pass);
    }
    places
}
