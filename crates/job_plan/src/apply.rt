// What a stage gives for a record.
ghost use Rattle.std.specs.Prelude.{◌≡◌, ◌++◌, OnOk};
ghost use Rattle.flow_defs.specs.Records.{IsShort};
ghost use Rattle.flow_defs.specs.Stages.{IsArgument, apply};
ghost use Rattle.stage_fns.specs.Meets.{MeetsStage, records};

use flow_defs::{Bytes, ListOf, Stage};
use stage_fns::StageFn;
use std::alloc::{AllocError, Global};

/// Adds to the list what the stage, whose kind has this function, gives for the record. Without memory
/// some of it may have been added.
#[tactic(auto, unfolding(flow_defs::specs::Stages::apply))]
pub fn apply_stage(
    alloc: Global,
    stage: &Stage,
    f: &StageFn,
    record: &[u8],
    given: &mut ListOf<Bytes>,
) -> Result<(), AllocError>
    requires argument { IsArgument stage.now.kind stage.now.arg.items }
    requires meets { MeetsStage stage.now.kind (StageFn.pre f.now) (StageFn.post f.now) }
    requires short { IsShort «record».now }
    ensures { OnOk result (records given.new ≡ records given.old ++ apply stage.now «record».now) }
{
    f(alloc, stage.arg.as_slice(), record, given)
}
