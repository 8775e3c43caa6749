//! Lines for tests and measurements, made of a seed: two words each, of which some come often and
//! some seldom.
//!
//! Contracts see the text of so many lines as the definition of
//! `specs/Generated.antt`, line by line. That they are so many lines of two words each is the law
//! of `laws`.
#![tactic(auto)]

pub mod laws;
mod lines;

pub use lines::generate;
