// Where the images of checkpoints are kept.
ghost use Rattle.std.specs.Prelude.{◌≡◌, ◌<◌, ◌≤◌, ℕ, List, Option, Err, IfOk, IfSome, OnOk, OnErr};
ghost use Rattle.outside.specs.Faults.{HasRisen};
ghost use Rattle.outside.specs.Keepers.{KeptImage, IsAbove, IsAboveLast, IsLastOf, with_image};
ghost use Rattle.outside.specs.declared.keeper.KeepFault.TheVariants.{Memory};

use flow_defs::Bytes;
use std::alloc::{AllocError, Global};
use thiserror::Error;

/// An image, and the number under which it is kept.
#[derive(Debug, Drop)]
pub struct Kept {
    pub number: u64,
    pub bytes: Bytes,
}

/// Why a keeper gave no image, or took none.
#[derive(Clone, Copy, Debug, PartialEq, Eq, Error)]
pub enum KeepFault {
    #[error("the keeper failed")]
    Failed,
    #[error("out of memory")]
    Memory,
}

impl From<AllocError> for KeepFault {
    ghost from_gives = { λ _ e. e ≡ Memory };

    fn from(_: AllocError) -> Self {
        KeepFault::Memory
    }
}

/// Keeps images in the order of their numbers. Who puts one looks at the last one first.
pub trait Keeper {
    /// The images, where they are told.
    ghost images: { Self → Option (List KeptImage) };

    /// How often a call has failed.
    ghost faults: { Self → ℕ };

    /// A copy of the last image, if there is one. It costs its length.
    fn last(&mut self, alloc: Global) -> Result<Option<Kept>, KeepFault>
        ensures told { IfSome (images self.old) (λ all. IfOk result (λ last. IsLastOf all last)) }
        ensures above { IfOk result (λ last. (number : ℕ) → IsAbove last number → IsAboveLast (images self.new) number) }
        ensures same { images self.new ≡ images self.old }
        ensures never_falls { faults self.old ≤ faults self.new }
        ensures failed { result ≡ Err KeepFault.Failed → HasRisen (faults self.old) (faults self.new) };

    /// Keeps a copy of these bytes as the last image, all of it or nothing.
    fn put(&mut self, alloc: Global, number: u64, bytes: &[u8]) -> Result<(), KeepFault>
        requires { IsAboveLast (images self.old) number }
        ensures told { OnOk result (images self.new ≡ with_image (images self.old) number bytes.now) }
        ensures above { OnOk result ((more : ℕ) → number < more → IsAboveLast (images self.new) more) }
        ensures kept { OnErr result (images self.new ≡ images self.old) }
        ensures never_falls { faults self.old ≤ faults self.new }
        ensures failed { result ≡ Err KeepFault.Failed → HasRisen (faults self.old) (faults self.new) };
}
