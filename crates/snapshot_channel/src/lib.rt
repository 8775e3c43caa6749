//! The channel on which snapshots of tasks travel to the worker that collects them.
//!
//! It stands on flow_defs, plain_machine, job_start and crossbeam_channel, and the tasks and the collecting worker
//! stand on it. Contracts see the pass of a task as the list of the snapshots that it has sent, and the
//! collecting pass as the list of those that it has received.
#![tactic(auto)]

mod channel;
mod opened;
mod rule;
mod views;

pub use opened::{CollectingPass, Opened, SnapshotChannel, TaskPass};
