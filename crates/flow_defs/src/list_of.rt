// A list of items of one type.
// It grows by slices too, as contents of 32 KiB go in at once.
ghost use Rattle.std.specs.Prelude.{◌≡◌, ◌+◌, ◌<◌, ◌≤◌, [], ◌∷◌, ◌++◌, length, IsOk, IsSome, OnOk, OnErr, ◌↔◌};
ghost use Rattle.std.specs.Option.{option_to_list};

use std::alloc::{AllocError, Global};
use std::marker::Model;

/// A list of items of one type. It keeps the allocator that it was made with.
///
/// Contracts see the items in order, and the room: how many more fit with no allocation.
#[derive(Debug, Drop)]
pub struct ListOf<T> {
    list: Vec<T>,
}

impl<T> Model for ListOf<T> {
    ghost use Rattle.std.specs.Prelude.{◌-◌, vec_len, vec_capacity};
    ghost use Rattle.flow_defs.specs.Items.{Items, items_code};

    ghost Value = { Items T };

    ghost coded = { items_code T.code };

    ghost view = { λ l. record { items = l.list.items; room = vec_capacity l.list - vec_len l.list } };
}

impl<T> ListOf<T> {
    ghost use Rattle.std.specs.Borrow.{sem};
    ghost use Rattle.flow_defs.specs.Lends.{lends_items};

    /// An empty list, which takes no memory.
    pub fn new(alloc: Global) -> Self
        ensures { result.items ≡ [] }
    {
        ListOf {
            list: Vec::new(alloc),
        }
    }

    /// Adds an item at the end, in constant time over many calls. A refused item is dropped.
    pub fn push(&mut self, item: T) -> Result<(), AllocError>
    where
        T: Drop,
        ensures ok { OnOk result (self.new.items ≡ self.old.items ++ item ∷ []) }
        ensures err { OnErr result (self.new.items ≡ self.old.items) }
        ensures succeeds { 0 < self.old.room → IsOk result }
        ensures room { self.old.room ≤ self.new.room + 1 }
    {
        Ok(self.list.push(item)?)
    }

    /// Adds copies of these items at the end, all of them or none.
    pub fn extend(&mut self, piece: &[T]) -> Result<(), AllocError>
    where
        T: Copy,
        ensures ok { OnOk result (self.new.items ≡ self.old.items ++ piece.now) }
        ensures err { OnErr result (self.new.items ≡ self.old.items) }
        ensures succeeds { length piece.now ≤ self.old.room → IsOk result }
        ensures room { self.old.room ≤ self.new.room + length piece.now }
    {
        self.list.extend_from_slice(piece)
    }

    /// Makes room for so many further items.
    pub fn reserve(&mut self, more: usize) -> Result<(), AllocError>
        ensures items { self.new.items ≡ self.old.items }
        ensures ok { OnOk result (more ≤ self.new.room) }
        ensures succeeds { more ≤ self.old.room → IsOk result }
        ensures keeps { self.old.room ≤ self.new.room }
    {
        self.list.reserve(more)
    }

    /// Takes the last item out. Its place is room again.
    pub fn pop(&mut self) -> Option<T>
        ensures items { self.old.items ≡ self.new.items ++ option_to_list result }
        ensures some { IsSome result ↔ (0 < length self.old.items) }
        ensures room { self.new.room ≡ self.old.room + length (option_to_list result) }
    {
        self.list.pop()
    }

    /// Takes the last item out of a list that has one. Its place is room again.
    pub fn take_last(&mut self) -> T
        requires { 0 < length self.old.items }
        ensures items { self.old.items ≡ self.new.items ++ result ∷ [] }
        ensures room { self.new.room ≡ self.old.room + 1 }
    {
        match self.list.pop() {
            Some(item) => item,
            None => unreachable!(),
        }
    }

    /// Takes all items out and drops them. Their places are room again.
    pub fn clear(&mut self)
    where
        T: Drop,
        ensures items { self.new.items ≡ [] }
        ensures room { self.new.room ≡ self.old.room + length self.old.items }
    {
        self.list.clear();
    }

    /// The items.
    pub fn as_slice(&self) -> &[T]
        ensures { result.now ≡ self.now.items }
    {
        &self.list
    }

    /// The items, for writing.
    pub fn as_mut_slice(&mut self) -> &mut [T]
        ensures* writes_back { sem 𝓛 (lends_items T.row self.entry result) }
        ensures value { result.now ≡ self.old.items }
    {
        self.list.as_mut_slice()
    }
}
