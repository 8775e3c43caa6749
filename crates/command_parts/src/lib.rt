//! What the commands share: why one was not done, with its status and its line; a file to its end; the inputs of a job's
//! sources, found and given back; a keeper that is asked; tables, replies and faults to sinks.
//!
//! It stands on outside and job_text, and the crates of the commands stand on it.
#![tactic(auto)]

pub mod fault;
pub mod held;
pub mod input;
pub mod inputs;
pub mod output;
