//! Barrier alignment: when a task may snapshot, given the barriers that its channels have given so far, and when
//! what it saves of them is whole.
//!
//! It stands on flow_defs, and the tasks stand on it. Contracts see an `Aligner` as an `Alignment`: how
//! many checkpoints are closed, of each channel whether it has given the barrier of the next one, and whether
//! the task saves for that, with the channels saved.
#![tactic(auto)]

mod aligner;
pub mod laws;

pub use aligner::{Action, Aligner};
