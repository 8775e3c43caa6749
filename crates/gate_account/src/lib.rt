//! What a gate tells of its channels, and what a task that aligns them took from it. So far barriers come in line.
//!
//! It stands on the alignment of barriers and on the cuts of a channel. It has no bodies, only definitions and laws.
#![tactic(auto)]

pub mod laws;
