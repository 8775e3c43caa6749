// Where bytes go.
ghost use Rattle.std.specs.Prelude.{◌≡◌, ◌<◌, ◌≤◌, ◌++◌, ℕ, List, Option, Some, length, take, IfOk, IfSome, OnErr};
ghost use Rattle.outside.specs.Faults.{HasRisen};

use crate::Failed;

/// Bytes that are written one after another.
pub trait Sink {
    /// The bytes that it got, where they are told.
    ghost got: { Self → Option (List ℕ) };

    /// How often a write has failed or took nothing.
    ghost faults: { Self → ℕ };

    /// Appends a front of `bytes`, and answers how many bytes that is. An answer of 0 is itself
    /// counted as a fault.
    fn write(&mut self, bytes: &[u8]) -> Result<usize, Failed>
        requires { 0 < length bytes.now }
        ensures count { IfOk result (λ n. n ≤ length bytes.now) }
        ensures told { IfSome (got self.old) (λ had. IfOk result (λ n. got self.new ≡ Some (had ++ take n bytes.now))) }
        ensures kept { OnErr result (got self.new ≡ got self.old) }
        ensures never_falls { faults self.old ≤ faults self.new }
        ensures failed { OnErr result (HasRisen (faults self.old) (faults self.new)) }
        ensures nothing { IfOk result (λ n. n ≡ 0 → HasRisen (faults self.old) (faults self.new)) };
}
