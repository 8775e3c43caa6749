//! What the workers of a job with aligned checkpoints come to together: each channel is cut at each barrier, so
//! that what was put before it is what was taken before it, and the images that are stored are a chain.
//!
//! It stands on the crates of both ends of a channel, of the tasks and of the collecting worker, and the crates
//! that run a job stand on it. It has no bodies, only definitions and laws.
#![tactic(auto)]

pub mod laws;
