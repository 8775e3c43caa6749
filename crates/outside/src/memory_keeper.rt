// A keeper in memory.
ghost use Rattle.std.specs.Prelude.{◌≡◌, ◌<◌, ◌≤◌, ℕ, map, Some, Err, IfOk, OnOk, OnErr};
ghost use Rattle.outside.specs.Faults.{HasRisen};
ghost use Rattle.outside.specs.Keepers.{IsAbove, IsAboveLast, IsLastOf, image_of, with_image};
ghost use Rattle.outside.specs.MemoryKeepers.{NumbersRise, LastStep, PutStep};

use crate::{KeepFault, Keeper, Kept};
use flow_defs::{Bytes, ListOf};
use std::alloc::{AllocError, Global};
use std::marker::Model;

/// Images in memory. The calls of `last` whose numbers are listed fail, and so do those of `put`, each
/// kind being counted by itself.
#[derive(Debug, Drop)]
pub struct MemoryKeeper {
    images: ListOf<Kept>,
    lasts: ListOf<u64>,
    puts: ListOf<u64>,
    last_calls: u64,
    put_calls: u64,
    faults: u64,
}

impl Model for MemoryKeeper {
    ghost use Rattle.std.specs.Prelude.{map};
    ghost use Rattle.outside.specs.Keepers.{image_of};
    ghost use Rattle.outside.specs.MemoryKeepers.{KeeperState, NumbersRise};

    ghost Value = { KeeperState };

    ghost view = { λ s. record { images = map image_of s.images.items; lasts = s.lasts.items; puts = s.puts.items; last_calls = s.last_calls; put_calls = s.put_calls; faults = s.faults } };

    ghost invariant = { λ s. NumbersRise (map image_of s.images.items) };
}

impl MemoryKeeper {
    ghost use Rattle.outside.specs.MemoryKeepers.{keeper_of};

    /// A keeper of these images. The numbers in `lasts` and in `puts` count from 1.
    pub fn new(images: ListOf<Kept>, lasts: ListOf<u64>, puts: ListOf<u64>) -> Self
        requires { NumbersRise (map image_of images.items) }
        ensures { result ≡ keeper_of (map image_of images.items) lasts.items puts.items }
    {
        MemoryKeeper {
            images,
            lasts,
            puts,
            last_calls: 0,
            put_calls: 0,
            faults: 0,
        }
    }

    /// The images that it keeps, in order.
    pub fn images(&self) -> &[Kept]
        ensures images { map image_of result.now ≡ self.now.images }
        ensures rise { NumbersRise self.now.images }
    {
        self.images.as_slice()
    }
}

// A copy of an image.
fn copy_of(alloc: Global, kept: &Kept) -> Result<Kept, AllocError>
    ensures { IfOk result (λ copy. image_of copy ≡ image_of kept.now) }
{
    Ok(Kept {
        number: kept.number,
        bytes: Bytes::of(alloc, kept.bytes.as_slice())?,
    })
}

// A copy of the last of these images.
fn last_of(alloc: Global, images: &[Kept]) -> Result<Option<Kept>, AllocError>
    ensures { IfOk result (λ last. IsLastOf (map image_of images.now) last) }
{
    match images.last() {
        Some(kept) => Ok(Some(copy_of(alloc, kept)?)),
        None => Ok(None),
    }
}

impl Keeper for MemoryKeeper {
    ghost images = { λ k. Some k.images };

    ghost faults = { λ k. k.faults };

    fn last(&mut self, alloc: Global) -> Result<Option<Kept>, KeepFault>
        ensures told { IfOk result (λ last. IsLastOf self.old.images last) }
        ensures above { IfOk result (λ last. (number : ℕ) → IsAbove last number → IsAboveLast (Some self.new.images) number) }
        ensures same { self.new.images ≡ self.old.images }
        ensures never_falls { self.old.faults ≤ self.new.faults }
        ensures failed { result ≡ Err KeepFault.Failed → HasRisen self.old.faults self.new.faults }

        // Which call fails, and what another one gives.
        ensures step { LastStep self.old result self.new }
    {
        self.last_calls = self.last_calls.saturating_add(1);
        if self.lasts.as_slice().contains(&self.last_calls) {
            self.faults = self.faults.saturating_add(1);
            return Err(KeepFault::Failed);
        }
        Ok(last_of(alloc, self.images.as_slice())?)
    }

    fn put(&mut self, alloc: Global, number: u64, bytes: &[u8]) -> Result<(), KeepFault>
        requires { IsAboveLast (Some self.old.images) number }
        ensures told { OnOk result (Some self.new.images ≡ with_image (Some self.old.images) number bytes.now) }
        ensures above { OnOk result ((more : ℕ) → number < more → IsAboveLast (Some self.new.images) more) }
        ensures kept { OnErr result (self.new.images ≡ self.old.images) }
        ensures never_falls { self.old.faults ≤ self.new.faults }
        ensures failed { result ≡ Err KeepFault.Failed → HasRisen self.old.faults self.new.faults }

        // Which call fails, and what another one does.
        ensures step { PutStep self.old number bytes.now result self.new }
    {
        self.put_calls = self.put_calls.saturating_add(1);
        if self.puts.as_slice().contains(&self.put_calls) {
            self.faults = self.faults.saturating_add(1);
            return Err(KeepFault::Failed);
        }
        let bytes = Bytes::of(alloc, bytes)?;
        self.images.push(Kept { number, bytes })?;
        Ok(())
    }
}
