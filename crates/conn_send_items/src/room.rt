// What the loop keeps for itself.
ghost use Rattle.std.specs.Prelude.{◌≡◌, ◌≢◌, ℕ, true, [], length, slice_get, Some, IfOk, replicate};

use crate::cells::Front;
use conn_parts::Outgoing;
use flow_defs::{Head, ListOf};
use std::alloc::{AllocError, Global};

/// The frames that are laid down, what the reader of each channel was told last, and whether the end of
/// each channel was laid down. After `new` nothing takes memory.
#[derive(Drop)]
pub struct Room {
    pub outgoing: Outgoing,
    pub told: ListOf<Front>,
    pub ended: ListOf<bool>,
}

// So many copies of an item.
fn copies<T: Copy + Drop>(alloc: Global, item: T, many: usize) -> Result<ListOf<T>, AllocError>
    ensures { IfOk result (λ list. list.items ≡ replicate many item) }
{
    let mut list = ListOf::new(alloc);
    list.reserve(many)?;
    for _copy in 0..many {
        list.push(item)?;
    }
    Ok(list)
}

impl Room {
    /// Room for so many channels, of which none has ended.
    pub fn new(alloc: Global, channels: usize) -> Result<Self, AllocError>
        ensures outgoing { IfOk result (λ room. room.outgoing ≡ []) }
        ensures told { IfOk result (λ room. length room.told.items ≡ channels) }
        ensures ended { IfOk result (λ room. length room.ended.items ≡ channels) }
        ensures none { IfOk result (λ room. (k : ℕ) → slice_get room.ended.items k ≢ Some true) }
    {
        let nothing = Front {
            head: Head::Nothing,
            backlog: 0,
        };
        Ok(Room {
            outgoing: Outgoing::new(alloc)?,
            told: copies(alloc, nothing, channels)?,
            ended: copies(alloc, false, channels)?,
        })
    }
}
