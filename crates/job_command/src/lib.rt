//! A job run over links in memory, from its sources' files to its table and the images that its keeper gets, which holds none before.
//!
//! It stands on job_run and command_parts; `commands` stands on it.
#![tactic(auto)]

pub mod exchange;
pub mod held;
