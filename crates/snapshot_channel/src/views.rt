//! What a pass knows. No value of these types is made.
use flow_defs::{Job, Snapshot, TaskId};
use job_start::Start;
use std::collections::LinkedList;

/// What a channel is opened for: a job, from where its tasks go on, and the lines that a source reads between
/// two checkpoints, or none where it reads to its end.
pub struct Opening {
    pub job: Job,
    pub start: Start,
    pub every: Option<u64>,
}

/// A task's pass: what it has sent.
pub struct Sends {
    pub opening: Opening,
    pub task: TaskId,
    pub sent: LinkedList<Snapshot>,
}

/// A pass that has come back: whose it was, and what it had sent.
pub struct Handed {
    pub task: TaskId,
    pub sent: LinkedList<Snapshot>,
}

/// The collecting pass: the first task that has no pass yet, what was received, and the passes that have
/// come back.
pub struct Collects {
    pub opening: Opening,
    pub next: TaskId,
    pub received: LinkedList<Snapshot>,
    pub back: LinkedList<Handed>,
}

pub enum View {
    Sending(Sends),
    Collecting(Collects),
    Spent,
}
