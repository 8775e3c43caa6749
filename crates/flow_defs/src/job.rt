// Jobs: what flows where, and what is done with it.
use crate::{Bytes, ListOf};

/// The largest number of sources of a job. It has at least one.
pub const SOURCES_MAX: usize = 8;

/// The largest number of stateless stages of a job.
pub const STAGES_MAX: usize = 6;

/// The largest number of tasks of a stage. It has at least one.
pub const TASKS_MAX: u32 = 8;

/// How records go from the tasks of one stage to those of the next.
#[derive(Clone, Copy, Debug, PartialEq, Eq)]
pub enum Exchange {
    /// By the hash of the key, so that the records of one key come to one task.
    Hash,
    /// To one task after the other.
    Rebalance,
    /// To the task of the same index.
    Forward,
}

/// What a stateless stage makes of a record.
#[derive(Clone, Copy, Debug, PartialEq, Eq)]
pub enum StageKind {
    /// Its pieces between spaces, empty ones dropped.
    Words,
    /// Itself, with lower case letters of ASCII raised.
    Upper,
    /// Itself where it begins with the stage's argument, and else nothing.
    Keep,
    /// One of its pieces between commas, where there are so many.
    Field,
}

/// What the aggregate keeps of the records of a key.
#[derive(Clone, Copy, Debug, PartialEq, Eq)]
pub enum AggKind {
    /// How many they are. The key is the whole record.
    Count,
    /// The sum of their values, modulo 2^64. The key is what stands before the last `=` of a record, and
    /// the value the number behind it.
    Sum,
    /// The greatest of their values. Key and value are as those of a sum.
    Max,
}

/// A stateless stage.
#[derive(Debug, Drop)]
pub struct Stage {
    pub kind: StageKind,
    /// The prefix of `Keep` and the number of `Field`, in decimal; for the others empty.
    pub arg: Bytes,
    pub tasks: u32,
    /// How records come into this stage.
    pub exchange: Exchange,
}

/// How the barriers of a checkpoint travel.
#[derive(Clone, Copy, Debug, PartialEq, Eq)]
pub enum Mode {
    /// In line with the data, so that tasks align.
    Inline,
    /// In front of the data, which is saved.
    Front,
    /// In line, and in front once a task has aligned for so many milliseconds.
    Timeout { millis: u64 },
}

/// A job: sources, then stateless stages, then an aggregate. Stage 0 is the sources, of one task each.
#[derive(Debug, Drop)]
pub struct Job {
    /// The names of the files that are read.
    pub sources: ListOf<Bytes>,
    pub stages: ListOf<Stage>,
    pub agg: AggKind,
    pub agg_tasks: u32,
    /// The text that this job was read from.
    pub text: Bytes,
}
