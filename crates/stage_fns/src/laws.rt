// What follows from the definitions of the stages. The functions here do nothing.
ghost use Rattle.std.specs.Prelude.{ℕ, List, All};
ghost use Rattle.flow_defs.specs.declared.job.StageKind.{StageKind};
ghost use Rattle.flow_defs.specs.Records.{IsShort};
ghost use Rattle.flow_defs.specs.Stages.{given};

/// What a stage gives for a record within the limit is within it, so a stage may be called with what
/// another gave.
pub fn stages_keep_records_short()
    ensures { (kind : StageKind) (arg r : List ℕ) → IsShort r → All IsShort (given kind arg r) }
{}
