// What may be wrong with a job's text.
ghost use Rattle.std.specs.Prelude.{◌≡◌};
ghost use Rattle.job_text.specs.declared.fault.JobReadFault.TheVariants.{Memory};

use std::alloc::AllocError;
use thiserror::Error;

/// What is wrong with a line of a job's text.
#[derive(Clone, Copy, Debug, PartialEq, Eq, Error)]
pub enum JobFault {
    /// The text ends before the aggregate's line.
    #[error("missing")]
    Missing,
    /// A line follows the aggregate's.
    #[error("extra")]
    Extra,
    /// The first word may not stand here, the words are too many or too few, or a source's file has
    /// no name.
    #[error("bad line")]
    BadLine,
    /// A source or a stage more than a job may have.
    #[error("too many")]
    TooMany,
    /// There is no such kind of stages or aggregates, or not with this argument.
    #[error("unknown kind")]
    UnknownKind,
    /// The table of functions has none of this kind.
    #[error("no function")]
    NoFunction,
    /// The tasks are no number from 1 to the most.
    #[error("bad number")]
    BadNumber,
    /// There is no such exchange.
    #[error("bad exchange")]
    BadExchange,
    /// An exchange that goes forward between stages of different numbers of tasks.
    #[error("bad width")]
    BadWidth,
}

/// Why no job was read from a text.
#[derive(Clone, Copy, Debug, PartialEq, Eq, Error)]
pub enum JobReadFault {
    /// The first fault of the text. Lines are counted from 1.
    #[error("job line {line}: {kind}")]
    Line { line: u64, kind: JobFault },
    #[error("out of memory")]
    Memory,
}

impl From<AllocError> for JobReadFault {
    ghost from_gives = { λ _ e. e ≡ Memory };

    fn from(_: AllocError) -> Self {
        JobReadFault::Memory
    }
}
