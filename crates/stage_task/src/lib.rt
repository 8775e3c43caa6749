//! The task of a stateless stage that takes checkpoints: it takes records from its gate and emits what its
//! stage gives for them. At each checkpoint it puts a barrier, lets its channels go on and sends a snapshot.
//!
//! It stands on task_taking, task_output, job_plan and stage_fns. Contracts see the records that it took in
//! groups, each of them before a barrier, and the snapshots that belong to them.
#![tactic(auto)]

mod applying;
mod checkpoints;
pub mod laws;
mod stage;

use applying::apply_all;
use checkpoints::{StageOutput, TakerEnd};
pub use stage::run_stage;
