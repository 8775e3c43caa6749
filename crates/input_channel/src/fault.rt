// Why an arrival was refused.
ghost use Rattle.std.specs.Prelude.{◌≡◌};
ghost use Rattle.input_channel.specs.declared.fault.AcceptFault.TheVariants.{Memory};

use std::alloc::AllocError;
use thiserror::Error;

/// Why a channel refused an arrival. The sender broke the rules of the exchange, but for `Memory`.
#[derive(Clone, Copy, Debug, PartialEq, Eq, Error)]
pub enum AcceptFault {
    #[error("sequence {got} came in place of {want}")]
    WrongSequence { want: u32, got: u32 },
    #[error("something came after the end")]
    AfterEnd,
    /// How many data frames came in all, with this one, and for how many credit was announced, both
    /// modulo 2^64.
    #[error("{received} buffers came for a credit of {announced}")]
    OverCredit { received: u64, announced: u64 },
    /// The lengths of the content and of a segment, in bytes.
    #[error("a buffer of {got} bytes is more than a segment of {size}")]
    OverSize { got: usize, size: u32 },
    #[error("barrier {got} came in place of {want}")]
    WrongBarrier { want: u64, got: u64 },
    #[error("out of memory")]
    Memory,
}

impl From<AllocError> for AcceptFault {
    ghost from_gives = { λ _ e. e ≡ Memory };

    fn from(_: AllocError) -> Self {
        AcceptFault::Memory
    }
}
