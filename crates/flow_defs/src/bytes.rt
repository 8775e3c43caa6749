// A list of bytes.
ghost use Rattle.std.specs.Prelude.{◌≡◌, ◌+◌, ◌<◌, ◌≤◌, [], ◌∷◌, ◌++◌, length, IfOk, IsOk, IsSome, OnOk, OnErr, ◌↔◌};
ghost use Rattle.std.specs.Option.{option_to_list};

use smallvec::SmallVec;
use std::alloc::{AllocError, Global};
use std::cmp::Ordering;
use std::hash::{Hash, Hasher};
use std::marker::Model;

// How many bytes lie in the value itself. Most words of a line are no longer.
const INLINE: usize = 24;

/// A list of bytes. It keeps the allocator that it was made with, and takes no memory while it has at
/// most 24 bytes.
///
/// Contracts see the bytes in order, and the room: how many more fit with no allocation.
#[derive(Debug, Drop)]
pub struct Bytes {
    bytes: SmallVec<u8, INLINE>,
}

impl Model for Bytes {
    ghost use Rattle.std.specs.Prelude.{ℕ, ◌-◌, length};
    ghost use Rattle.std.specs.Coded.{coded_ℕ};
    ghost use Rattle.flow_defs.specs.Items.{Items, items_code};

    ghost Value = { Items ℕ };

    ghost coded = { items_code coded_ℕ };

    ghost view = { λ b. record { items = b.bytes.items; room = b.bytes.capacity - length b.bytes.items } };
}

impl Bytes {
    ghost use Rattle.std.specs.Borrow.{sem};
    ghost use Rattle.flow_defs.specs.Lends.{lends_bytes};

    /// No bytes, which take no memory.
    pub fn new(alloc: Global) -> Self
        ensures { result.items ≡ [] }
    {
        Bytes {
            bytes: SmallVec::new(alloc),
        }
    }

    /// A copy of these bytes.
    pub fn of(alloc: Global, bytes: &[u8]) -> Result<Self, AllocError>
        ensures { IfOk result (λ copy. copy.items ≡ bytes.now) }
    {
        let mut copy = Bytes::new(alloc);
        copy.extend(bytes)?;
        Ok(copy)
    }

    /// Adds a byte at the end, in constant time over many calls.
    pub fn push(&mut self, item: u8) -> Result<(), AllocError>
        ensures ok { OnOk result (self.new.items ≡ self.old.items ++ item ∷ []) }
        ensures err { OnErr result (self.new.items ≡ self.old.items) }
        ensures succeeds { 0 < self.old.room → IsOk result }
        ensures room { self.old.room ≤ self.new.room + 1 }
    {
        Ok(self.bytes.push(item)?)
    }

    /// Adds these bytes at the end.
    pub fn extend(&mut self, piece: &[u8]) -> Result<(), AllocError>
        ensures ok { OnOk result (self.new.items ≡ self.old.items ++ piece.now) }
        ensures err { OnErr result (self.new.items ≡ self.old.items) }
        ensures succeeds { length piece.now ≤ self.old.room → IsOk result }
        ensures room { self.old.room ≤ self.new.room + length piece.now }
    {
        // Read here and below so that the length is known to be at most the capacity.
        let _len = self.bytes.len();
        self.bytes.extend_from_slice(piece)
    }

    /// Makes room for so many further bytes.
    pub fn reserve(&mut self, more: usize) -> Result<(), AllocError>
        ensures items { self.new.items ≡ self.old.items }
        ensures ok { OnOk result (more ≤ self.new.room) }
        ensures keeps { self.old.room ≤ self.new.room }
    {
        self.bytes.reserve(more)
    }

    /// Takes the last byte out. Its place is room again.
    pub fn pop(&mut self) -> Option<u8>
        ensures items { self.old.items ≡ self.new.items ++ option_to_list result }
        ensures some { IsSome result ↔ (0 < length self.old.items) }
        ensures room { self.new.room ≡ self.old.room + length (option_to_list result) }
    {
        let _len = self.bytes.len();
        self.bytes.pop()
    }

    /// Takes all bytes out. Their places are room again.
    pub fn clear(&mut self)
        ensures items { self.new.items ≡ [] }
        ensures room { self.new.room ≡ self.old.room + length self.old.items }
    {
        let _len = self.bytes.len();
        self.bytes.clear()
    }

    /// The bytes.
    pub fn as_slice(&self) -> &[u8]
        ensures { result.now ≡ self.now.items }
    {
        self.bytes.as_slice()
    }

    /// The bytes, for writing.
    pub fn as_mut_slice(&mut self) -> &mut [u8]
        ensures* writes_back { sem 𝓛 (lends_bytes self.entry result) }
        ensures value { result.now ≡ self.old.items }
    {
        self.bytes.as_mut_slice()
    }
}

// Bytes are compared, ordered and hashed by their items alone.

impl PartialEq for Bytes {
    ghost use Rattle.std.specs.Prelude.{◌==◌};
    ghost use Rattle.std.specs.Ordering.{on};
    ghost use Rattle.std.specs.Cmp.Lexicographic.{pointwise};
    ghost use Rattle.std.specs.Cmp.Rules.{comparing};
    ghost use Rattle.std.proofs.Common.{rules};

    ghost eq = { on (λ b. b.items) (pointwise ◌==◌) };

    ghost laws = { Prim.search (comparing, rules) };

    fn eq(&self, other: &Self) -> bool {
        self.bytes.as_slice() == other.bytes.as_slice()
    }
}

impl Eq for Bytes {
    ghost use Rattle.std.specs.Cmp.Rules.{comparing};
    ghost use Rattle.std.proofs.Common.{rules};

    ghost laws = { Prim.search (comparing, rules) };
}

impl PartialOrd for Bytes {
    ghost use Rattle.std.specs.Ordering.{nat_cmp, on, as_partial_cmp};
    ghost use Rattle.std.specs.Cmp.{partial_order_from_own_ties};
    ghost use Rattle.std.specs.Cmp.Lexicographic.{slice_cmp};
    ghost use Rattle.std.specs.Cmp.Rules.{comparing};
    ghost use Rattle.std.proofs.Common.{rules};

    ghost partial_cmp = { as_partial_cmp (on (λ b. b.items) (slice_cmp nat_cmp)) };

    ghost laws = { partial_order_from_own_ties (Prim.search (comparing, rules)) (Prim.search (comparing, rules)) };

    fn partial_cmp(&self, other: &Self) -> Option<Ordering> {
        Some(self.cmp(other))
    }
}

impl Ord for Bytes {
    ghost use Rattle.std.specs.Ordering.{nat_cmp, on};
    ghost use Rattle.std.specs.Cmp.Lexicographic.{slice_cmp};
    ghost use Rattle.std.specs.Cmp.Rules.{comparing};
    ghost use Rattle.std.proofs.Common.{rules};

    ghost cmp = { on (λ b. b.items) (slice_cmp nat_cmp) };

    ghost total = { Prim.search (comparing, rules) };

    ghost matches_partial_cmp = { Prim.search (comparing, rules) };

    ghost matches_eq = { Prim.search (comparing, rules) };

    fn cmp(&self, other: &Self) -> Ordering {
        self.bytes.as_slice().cmp(&other.bytes.as_slice())
    }
}

impl Hash for Bytes {
    ghost use Rattle.std.specs.Prelude.{◌∷◌, []};
    ghost use Rattle.std.specs.Cmp.Lexicographic.{same_text};
    ghost use Rattle.std.proofs.Common.{ap, sym};

    ghost hash_input = { λ b. b.items ∷ [] };

    ghost respects_eq = { λ a b same. ap (λ l. l ∷ []) (same_text a.items b.items (sym same)) };

    fn hash<H: Hasher>(&self, state: &mut H) {
        state.write(self.bytes.as_slice());
    }
}
