// Sees that a run may begin.
ghost use Rattle.std.specs.Prelude.{◌≡◌, ◌≤◌, IfErr, OnOk};
ghost use Rattle.outside.specs.Faults.{HasRisen};
ghost use Rattle.job_workers.specs.Collecting.{TakesImages};
ghost use Rattle.command_parts.specs.Causes.{status_of};
ghost use Rattle.command_parts.specs.Held.{HoldsNone, IsHeldFault};

use command_parts::fault::Fault;
use command_parts::held::ask_last;
use outside::Keeper;
use std::alloc::Global;

/// Sees that the keeper holds no image. A run begins without one, and the keeper takes its images from number 1 on.
pub fn refuse_held<K: Keeper>(alloc: Global, keeper: &mut K) -> Result<(), Fault>
    ensures none { OnOk result (HoldsNone (K.images keeper.old)) }
    ensures takes { OnOk result (TakesImages (K.images keeper.new)) }
    ensures fault { IfErr result (IsHeldFault (K.images keeper.old)) }
    ensures keeper { IfErr result (λ fault. status_of fault ≡ 5 → HasRisen (K.faults keeper.old) (K.faults keeper.new)) }
    ensures same { K.images keeper.new ≡ K.images keeper.old }
    ensures never_falls { K.faults keeper.old ≤ K.faults keeper.new }
{
    match ask_last(alloc, keeper)? {
        Some(kept) => Err(Fault::HoldsImage {
            number: kept.number,
        }),
        None => Ok(()),
    }
}
