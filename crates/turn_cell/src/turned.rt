// What a state stands for, and how a turn's entry is named.
// Each state has an entry type of its own. With a bound on the trait's parameter a call of `leave` could no
// longer pick its entry.
ghost use Rattle.std.specs.Prelude.{ℕ, List};

/// A value that can lie in a turn cell. Entries and the fixed part are plain data; no value of them is made.
pub trait Turned {
    type Entry;

    type Fixed;

    /// The history for which the state stands: pairs of a pass's number and an entry.
    ghost stands: { Self → List (ℕ × Self.Entry) → Type 0 };

    /// What of the state is the same at every turn.
    ghost fixed: { Self → Self.Fixed };
}

/// An entry. The crate that makes a state `Turned` has an entry type of its own, and makes `Brand` a
/// `Named` for that type; each call of `leave` then picks its entry.
pub trait Named<X> {
    ghost entry: { X };
}
