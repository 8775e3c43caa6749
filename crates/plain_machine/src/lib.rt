//! The plain machine: what a job computes between two checkpoints, on whole lists, with no buffers,
//! credit, barriers or threads.
//!
//! It stands on `flow_defs`, and has definitions and laws alone. Its `specs/` say what a cut of a job
//! is, its successor and its worth, what an image holds, and when images form a chain. The laws are
//! the contracts of the functions of `laws` and `sizes`, which do nothing.
#![tactic(auto)]

pub mod laws;
pub mod sizes;
