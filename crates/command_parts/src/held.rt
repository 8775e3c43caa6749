// Asks a keeper for what it holds.
ghost use Rattle.std.specs.Prelude.{◌≡◌, ◌≤◌, ℕ, IfOk, IfErr, IfSome};
ghost use Rattle.outside.specs.Faults.{HasRisen};
ghost use Rattle.outside.specs.Keepers.{IsAbove, IsAboveLast, IsLastOf};
ghost use Rattle.command_parts.specs.Causes.{status_of};
ghost use Rattle.command_parts.specs.Held.{IsKeeperFault};

use crate::fault::Fault;
use outside::{KeepFault, Keeper, Kept};
use std::alloc::Global;

/// The last image that the keeper holds, if there is one. It costs its length.
pub fn ask_last<K: Keeper>(alloc: Global, keeper: &mut K) -> Result<Option<Kept>, Fault>
    ensures told { IfOk result (λ last. IfSome (K.images keeper.old) (λ images. IsLastOf images last)) }
    ensures above { IfOk result (λ last. (number : ℕ) → IsAbove last number → IsAboveLast (K.images keeper.new) number) }
    ensures fault { IfErr result IsKeeperFault }
    ensures keeper { IfErr result (λ fault. status_of fault ≡ 5 → HasRisen (K.faults keeper.old) (K.faults keeper.new)) }
    ensures same { K.images keeper.new ≡ K.images keeper.old }
    ensures never_falls { K.faults keeper.old ≤ K.faults keeper.new }
{
    match keeper.last(alloc) {
        Ok(last) => Ok(last),
        Err(KeepFault::Failed) => Err(Fault::Keeper),
        Err(KeepFault::Memory) => Err(Fault::Memory),
    }
}
