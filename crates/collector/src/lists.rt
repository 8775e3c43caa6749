// Lists that are filled place by place.
ghost use Rattle.std.specs.Prelude.{◌≡◌, ℕ, ◌+◌, ◌<◌, replicate, length, IfOk};
ghost use Rattle.collector.specs.Filling.{IsPut};

use flow_defs::ListOf;
use std::alloc::{AllocError, Global};

/// So many copies of an item.
pub fn copies<T: Copy>(alloc: Global, item: T, many: usize) -> Result<ListOf<T>, AllocError>
    ensures { IfOk result (λ list. length list.items ≡ many) }
{
    let mut list = ListOf::new(alloc);
    for _made in 0..many {
        list.push(item)?;
    }
    Ok(list)
}

/// Puts an item at a place that is counted from the first one, where the list has it, and drops the one there.
pub fn put_from<T: Drop>(list: &mut ListOf<T>, first: usize, place: usize, item: T)
    ensures { IsPut first place item list.old.items list.new.items }
{
    if place >= first && place - first < list.as_slice().len() {
        list.as_mut_slice()[place - first] = item;
    }
}
