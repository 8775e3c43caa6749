//! Collects what the tasks of a job acknowledge of a checkpoint, and makes the image of it.
//!
//! It stands on `flow_defs`, `plain_machine` and `record_spans`. The collecting worker of a run stands on it. Contracts
//! see a collector as a record: its job, the checkpoint that is open, and by stage and index what each
//! task has acknowledged.
#![tactic(auto)]

mod blank;
mod collector;
mod fault;
mod filling;
pub mod laws;
mod lists;
mod places;

pub use collector::{Checkpoint, Collector};
pub use fault::find_fault;
pub use places::{place_of, task_place};
