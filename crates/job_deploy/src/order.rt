// Items of lists.
ghost use Rattle.std.specs.Prelude.{◌≡◌, ℕ, ◌+◌, ◌<◌, ◌≤◌, ◌^◌, [], ◌∷◌, ◌++◌, length, reverse, slice_get, Some};

use flow_defs::ListOf;

/// The items from the last to the first.
pub fn turned<T: Drop>(list: ListOf<T>) -> ListOf<T>
    ensures { result.items ≡ reverse list.items }
{
    let mut list = list;
    list.as_mut_slice().reverse();
    list
}

/// Adds an item at the end, where there is room for it.
pub fn put<T: Drop>(list: &mut ListOf<T>, item: T)
    requires { 0 < list.old.room }
    ensures items { list.new.items ≡ list.old.items ++ item ∷ [] }
    ensures room { list.old.room ≤ list.new.room + 1 }
{
    match list.push(item) {
        Ok(()) => {}
        Err(_) => unreachable!(),
    }
}

/// The item at a place.
pub fn item_at<T>(items: &[T], place: usize) -> &T
    requires { place < length items.now }
    ensures { slice_get items.now place ≡ Some result.now }
{
    &items[place]
}

/// So many items from a place on.
pub fn part_of<T>(items: &[T], first: usize, many: usize) -> &[T]
    requires within { first + many ≤ length items.now }
    requires few { length items.now < 2 ^ 32 }
    ensures many { length result.now ≡ many }
    ensures each { (i : ℕ) (x : T) → slice_get result.now i ≡ Some x → slice_get items.now (first + i) ≡ Some x }
{
    let end = first + many;
    &items[first..end]
}
