//! Tests of the world outside, over the built crate: the forms in memory and the real ones of files, sources
//! and sinks, keepers and the last image, and links.
#![tactic(auto)]

#[cfg(test)]
mod forms_tests;
#[cfg(test)]
mod keeper_tests;
#[cfg(test)]
mod link_tests;
