// What checkpoints hold.
use crate::{Bytes, ChannelId, ListOf, Table, TaskId};

/// So many records, one after another, that a task took from one sender.
#[derive(Clone, Copy, Debug, PartialEq, Eq)]
pub struct TakeRun {
    /// The index of the sending task.
    pub from: u32,
    pub count: u64,
}

/// Saved bytes of a channel.
#[derive(Debug, Drop)]
pub struct Saved {
    pub channel: ChannelId,
    pub bytes: Bytes,
}

/// The state of a task at a checkpoint. What its kind of task lacks is 0, false or empty.
#[derive(Debug, Drop)]
pub struct Snapshot {
    pub task: TaskId,
    /// The number of the checkpoint.
    pub number: u64,
    /// How many lines a source has read.
    pub offset: u64,
    /// Whether a source is at its end.
    pub ended: bool,
    /// How many records the task has emitted, modulo 2^64.
    pub emitted: u64,
    /// What an aggregate task has counted.
    pub table: Table,
    /// What the task took since the snapshot before.
    pub takes: ListOf<TakeRun>,
    /// What had come in on its channels and was not taken.
    pub saved_in: ListOf<Saved>,
    /// What its barriers overtook at its own outputs.
    pub saved_out: ListOf<Saved>,
}

/// The state of a job at a checkpoint.
///
/// Tasks stand in the order of their stages and then of their indices, channels in that of their
/// edges, then of the sending and then of the receiving tasks.
#[derive(Debug, Drop)]
pub struct Image {
    /// The number of the checkpoint, from 1.
    pub number: u64,
    /// Whether no checkpoint follows.
    pub final_one: bool,
    /// The text of the job.
    pub text: Bytes,
    /// How many lines each source has read.
    pub offsets: ListOf<u64>,
    /// Whether each source is at its end.
    pub ended: ListOf<bool>,
    /// How many records each task of the sources and stages has emitted, modulo 2^64.
    pub emitted: ListOf<u64>,
    /// What each aggregate task has counted.
    pub tables: ListOf<Table>,
    /// What each task of the stages and the aggregate took since the image before.
    pub takes: ListOf<ListOf<TakeRun>>,
    /// The bytes of each channel that had come in and were not taken.
    pub saved_in: ListOf<Bytes>,
    /// The bytes of each channel that its barrier overtook at the sender.
    pub saved_out: ListOf<Bytes>,
}
