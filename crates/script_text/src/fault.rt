// What may be wrong with a script's text.
ghost use Rattle.std.specs.Prelude.{◌≡◌};
ghost use Rattle.script_text.specs.declared.fault.ScriptFault.TheVariants.{Memory};

use std::alloc::AllocError;
use thiserror::Error;

/// Why no script was read from a text.
#[derive(Clone, Copy, Debug, PartialEq, Eq, Error)]
pub enum ScriptFault {
    /// The first line that is not as it should be. Lines are counted from 1.
    #[error("script line {line}: bad line")]
    Line { line: u64 },
    #[error("out of memory")]
    Memory,
}

impl From<AllocError> for ScriptFault {
    ghost from_gives = { λ _ e. e ≡ Memory };

    fn from(_: AllocError) -> Self {
        ScriptFault::Memory
    }
}
