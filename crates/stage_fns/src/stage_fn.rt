// The function of a stage.
ghost use Rattle.stage_fns.specs.Meets.{MeetsStage};

use flow_defs::{Bytes, ListOf, StageKind};
use std::alloc::{AllocError, Global};

/// A function of a stage: it takes the allocator, the stage's argument and a record, and adds to the
/// list what the stage gives for the record. Several threads may call it at once.
pub type StageFn = Box<
    dyn Fn(Global, &[u8], &[u8], &mut ListOf<Bytes>) -> Result<(), AllocError> + Send + Sync,
>;

// A function, which stands for stages of this kind.
#[derive(Drop)]
pub struct StageEntry {
    pub kind: StageKind,
    pub f: StageFn,
    ghost meets: { MeetsStage kind (StageFn.pre f) (StageFn.post f) },
}
