//! What a job comes to, from what its workers left: whether all were done, and else the fault that stopped them;
//! and what the images come to that were stored meanwhile, whatever the workers ended with.
//!
//! It stands on job_deploy, which says where each worker stood, on job_ends, which settles the edges, on
//! collecting_worker, whose account says what was stored, and on job_chain, by which that is a chain.
#![tactic(auto)]

pub mod laws;
mod outcome;

pub use outcome::outcome_of;
