//! Checkpoints of a job, told by its workers. It stands on `plain_machine`, and the crates of tasks,
//! of the collecting worker and of the whole job stand on it. It has no bodies, only definitions and
//! laws.
//!
//! Its `specs/` say what a task puts between its barriers, what its account is, chapter by chapter,
//! what an image is made of, and when a run is told by its workers. The laws are the contracts of the
//! functions of `laws`, which do nothing: the images of such a run are a chain.
#![tactic(auto)]

pub mod laws;
