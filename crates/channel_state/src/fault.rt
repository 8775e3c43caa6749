// Why an image was not written or not read.
ghost use Rattle.std.specs.Prelude.{◌≡◌};
ghost use Rattle.channel_state.specs.declared.fault.WriteFault.TheVariants as write_fault;
ghost use Rattle.channel_state.specs.declared.fault.ImageFault.TheVariants as image_fault;

use std::alloc::AllocError;
use thiserror::Error;

/// Why an image was not written.
#[derive(Clone, Copy, Debug, PartialEq, Eq, Error)]
pub enum WriteFault {
    /// A number of keys or of runs, or the length of a saved piece, is above 4,294,967,295.
    #[error("image over 4294967295")]
    TooBig,
    #[error("out of memory")]
    Memory,
}

impl From<AllocError> for WriteFault {
    ghost from_gives = { λ _ e. e ≡ write_fault.Memory };

    fn from(_: AllocError) -> Self {
        WriteFault::Memory
    }
}

/// Why no image was read.
#[derive(Clone, Copy, Debug, PartialEq, Eq, Error)]
pub enum ImageFault {
    /// The bytes are no image. The place is that of the first byte of the first field, counted from 0, that
    /// is cut or doesn't say what it has to.
    #[error("not an image at {place}")]
    NotImage { place: u64 },
    #[error("out of memory")]
    Memory,
}

impl From<AllocError> for ImageFault {
    ghost from_gives = { λ _ e. e ≡ image_fault.Memory };

    fn from(_: AllocError) -> Self {
        ImageFault::Memory
    }
}
