//! How barriers cut a channel: what was put before a barrier is what the gate at its other end gave before the
//! snapshot, or what a save has of the channel and what the barrier overtook. So far the gates cut channels at
//! barriers in line alone. By such cuts each task tells what it did, and where all tasks of a run do, the images of
//! the run are a chain.
//!
//! It stands on the crates of both ends of a channel. It has no bodies, only definitions and laws.
#![tactic(auto)]

pub mod laws;
