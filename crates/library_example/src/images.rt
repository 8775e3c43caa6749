// The images of a run's checkpoints, kept in a list.
ghost use Rattle.std.specs.Prelude.{◌≡◌, [], Some, map};
ghost use Rattle.outside.specs.Keepers.{image_of};

use flow_defs::{Bytes, ListOf};
use outside::{KeepFault, Keeper, Kept};
use std::alloc::Global;

/// All images that it was given, in order. It fails only for want of memory.
#[derive(Drop)]
pub struct ImageList {
    pub images: ListOf<Kept>,
}

impl ImageList {
    pub fn new(alloc: Global) -> Self
        ensures { result.images.items ≡ [] }
    {
        ImageList {
            images: ListOf::new(alloc),
        }
    }
}

impl Keeper for ImageList {
    ghost images = { λ k. Some (map image_of k.images.items) };

    ghost faults = { λ _. 0 };

    fn last(&mut self, alloc: Global) -> Result<Option<Kept>, KeepFault> {
        match self.images.as_slice().last() {
            Some(kept) => Ok(Some(Kept {
                number: kept.number,
                bytes: Bytes::of(alloc, kept.bytes.as_slice())?,
            })),
            None => Ok(None),
        }
    }

    fn put(&mut self, alloc: Global, number: u64, bytes: &[u8]) -> Result<(), KeepFault> {
        let bytes = Bytes::of(alloc, bytes)?;
        self.images.push(Kept { number, bytes })?;
        Ok(())
    }
}
