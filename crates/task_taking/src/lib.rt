//! What a task that takes checkpoints takes from its gate: records, noted as runs of senders, cut into
//! groups by aligned barriers.
//!
//! It stands on input_gate, barriers and checkpoint_laws, and the tasks that take checkpoints stand on it.
//! Contracts see a `TaskTaking` as a `Taking`: the runs noted since the last barrier, and the alignment. What
//! was taken is told beside the account of the gate, group by group.
#![tactic(auto)]

mod places;
mod resuming;
mod runs;
mod taking;

pub use taking::{Taken, TaskTaking};
