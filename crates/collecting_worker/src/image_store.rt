// Where the worker stores images.
ghost use Rattle.std.specs.Prelude.{◌≡◌, ◌≤◌, ◌<◌, [], ℕ, List, Option, Err, OnOk, OnErr};
ghost use Rattle.turn_cell.specs.Passes.{IsTurnOf, seen};
ghost use Rattle.outside.specs.Faults.{HasRisen};
ghost use Rattle.outside.specs.Keepers.{KeptImage, IsAboveLast, with_image};
ghost use Rattle.outside.specs.declared.keeper.KeepFault.TheVariants.{Failed};
ghost use Rattle.conn_parts.specs.Stopping.{StopCell};

use outside::{KeepFault, Keeper, StopState};
use std::alloc::Global;
use turn_cell::Turn;

/// Where the worker stores images. One goes in only in a turn of the stop cell that shows no entry, so none is
/// stored behind one: who calls `store` has the turn in hand, and no other has one before it ends.
///
/// Each keeper is such a store.
pub trait ImageStore {
    /// The images, where they are told.
    ghost images: { Self → Option (List KeptImage) };

    /// How often a call has failed.
    ghost faults: { Self → ℕ };

    /// The cell in whose turns it takes images.
    ghost is_stopped_by: { Self → StopCell → Type 0 };

    /// Stores a copy of these bytes as the last image, all of it or nothing, in this turn.
    fn store(
        &mut self,
        alloc: Global,
        number: u64,
        bytes: &[u8],
        turn: &Turn<'_, StopState>,
    ) -> Result<(), KeepFault>
        requires turn { IsTurnOf turn.now.cell.now turn.now.pass.now × is_stopped_by self.old turn.now.cell.now }
        requires no_entry { seen turn.now.pass.now ≡ [] }
        requires above { IsAboveLast (images self.old) number }
        ensures cell { is_stopped_by self.new turn.now.cell.now }
        ensures told { OnOk result (images self.new ≡ with_image (images self.old) number bytes.now) }
        ensures above { OnOk result ((more : ℕ) → number < more → IsAboveLast (images self.new) more) }
        ensures kept { OnErr result (images self.new ≡ images self.old) }
        ensures never_falls { faults self.old ≤ faults self.new }
        ensures failed { result ≡ Err Failed → HasRisen (faults self.old) (faults self.new) };
}

impl<K: Keeper> ImageStore for K {
    ghost images = { λ keeper. K.Keeper.images keeper };

    ghost faults = { λ keeper. K.Keeper.faults keeper };

    // A keeper takes an image at any time.
    ghost is_stopped_by = { λ keeper cell. Unit {0} };

    fn store(
        &mut self,
        alloc: Global,
        number: u64,
        bytes: &[u8],
        _turn: &Turn<'_, StopState>,
    ) -> Result<(), KeepFault> {
        self.put(alloc, number, bytes)
    }
}
