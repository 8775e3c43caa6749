//! Both ends of one connection as a world of lists: what each event does to it, and what it replies.
//!
//! It has definitions and laws alone. exchange_core does what the world does, with segments, rings and
//! pools, and its contract cites the definitions here.
#![tactic(auto)]

pub mod laws;
