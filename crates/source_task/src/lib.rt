//! The task of a source that takes checkpoints: it emits the lines of its input, puts a barrier behind so many
//! of them, and sends a snapshot for each.
//!
//! It stands on task_output, job_plan and outside. Contracts see the lines in groups, each of them
//! before a barrier, and the snapshots that belong to them.
#![tactic(auto)]

pub mod laws;
mod lines;
mod output;
mod reading;
mod source;

use output::{LineFault, SourceOutput};
pub use source::run_source;
