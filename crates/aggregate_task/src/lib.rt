//! The task of an aggregate that takes checkpoints: it counts the records of its gate, and at the barriers of
//! a checkpoint it sends a snapshot with a copy of its table.
//!
//! It stands on task_taking, task_output and job_plan. Contracts see what it took in groups, each of them
//! before a barrier, and the snapshots that belong to them.
#![tactic(auto)]

mod aggregate;
mod checkpoint;
mod counting;
pub mod laws;

pub use aggregate::run_aggregate;
