// Files, found by their names.
ghost use Rattle.std.specs.Prelude.{◌≡◌, ◌+◌, ◌-◌, ◌<◌, ◌≤◌, ℕ, List, Option, Err, IfOk, OnOk, OnErr};
ghost use Rattle.outside.specs.Faults.{HasRisen};
ghost use Rattle.outside.specs.declared.files.FindFault.TheVariants.{Memory};

use crate::Source;
use std::alloc::{AllocError, Global};
use thiserror::Error;

/// Why `find` gave no input.
#[derive(Clone, Copy, Debug, PartialEq, Eq, Error)]
pub enum FindFault {
    #[error("the file was not found")]
    Failed,
    #[error("out of memory")]
    Memory,
}

impl From<AllocError> for FindFault {
    ghost from_gives = { λ _ e. e ≡ Memory };

    fn from(_: AllocError) -> Self {
        FindFault::Memory
    }
}

/// Files that are found by their names. Each input that is found has to be given back.
pub trait Files {
    type Input: Source + Send;

    /// The contents under each name, where they are told.
    ghost contents: { Self → List ℕ → Option (List ℕ) };

    /// How often a file was not found, or an input with a fault was given back.
    ghost faults: { Self → ℕ };

    /// How many inputs were found and not given back yet.
    ghost lent: { Self → ℕ };

    /// The input under this name. What is left of it is the contents under the name.
    fn find(&mut self, alloc: Global, name: &str) -> Result<Self::Input, FindFault>
        ensures told { IfOk result (λ input. Self.Input.left input ≡ contents self.old name.now) }
        ensures fresh { IfOk result (λ input. Self.Input.faults input ≡ 0) }
        ensures same { contents self.new ≡ contents self.old }
        ensures never_falls { faults self.old ≤ faults self.new }
        ensures failed { result ≡ Err FindFault.Failed → HasRisen (faults self.old) (faults self.new) }
        ensures lends { OnOk result (lent self.new ≡ lent self.old + 1) }
        ensures lends_none { OnErr result (lent self.new ≡ lent self.old) };

    /// Takes an input back. The count of faults rises in this exactly where the input's is above 0.
    fn back(&mut self, input: Self::Input)
        ensures same { contents self.new ≡ contents self.old }
        ensures rises { 0 < Self.Input.faults input → HasRisen (faults self.old) (faults self.new) }
        ensures stays { Self.Input.faults input ≡ 0 → faults self.new ≡ faults self.old }
        ensures never_falls { faults self.old ≤ faults self.new }
        ensures returns { lent self.new ≡ lent self.old - 1 };
}
