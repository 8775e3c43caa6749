// Which kinds have a function, for one who reads the text of a job.
ghost use Rattle.std.specs.Prelude.{◌≡◌, IsTrue, ◌↔◌};
ghost use Rattle.stage_fns.specs.Functions.{HasStage, HasAgg};
ghost use Rattle.job_text.specs.KnownKinds.{known};

use flow_defs::{AggKind, StageKind};
use stage_fns::FnTable;

// The kinds that have a function.
#[derive(Clone, Copy)]
pub(crate) enum Known<'a> {
    // All kinds that there are.
    Every,
    // Those that have one in a table.
    Table(&'a FnTable),
}

impl<'a> Known<'a> {
    // Whether a kind of stages has a function.
    pub fn has_stage(self, kind: StageKind) -> bool
        ensures { IsTrue result ↔ HasStage (known self.entry) kind }
    {
        match self {
            Known::Every => true,
            Known::Table(functions) => functions.stage(kind).is_some(),
        }
    }

    // Whether a kind of aggregates has a function.
    pub fn has_agg(self, kind: AggKind) -> bool
        ensures { IsTrue result ↔ HasAgg (known self.entry) kind }
    {
        match self {
            Known::Every => true,
            Known::Table(functions) => functions.agg(kind).is_some(),
        }
    }
}
