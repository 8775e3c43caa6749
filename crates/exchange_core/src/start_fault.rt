// Why a connection could not be opened.

use std::alloc::AllocError;
use thiserror::Error;

/// Why a connection could not be opened.
#[derive(Clone, Copy, Debug, PartialEq, Eq, Error)]
pub enum StartFault {
    /// There are fewer segments than its channels need, four for each.
    #[error("pool has {have}, needs {need}")]
    TooFew { need: u32, have: u32 },
    #[error("out of memory")]
    Memory,
}

impl From<AllocError> for StartFault {
    ghost use Rattle.std.specs.Prelude.{◌≡◌};
    ghost use Rattle.exchange_core.specs.declared.start_fault.StartFault.TheVariants.{Memory};

    ghost from_gives = { λ _ e. e ≡ Memory };

    fn from(_: AllocError) -> Self {
        StartFault::Memory
    }
}
