//! Tests of images and what makes them, over the built crates: snapshot_channel, collector, channel_state, image_lines and
//! collecting_worker.
#![tactic(auto)]

#[cfg(test)]
mod channel_state_tests;
#[cfg(test)]
mod collecting_worker_tests;
#[cfg(test)]
mod collector_tests;
#[cfg(test)]
mod image_lines_tests;
#[cfg(test)]
mod snapshot_channel_tests;
#[cfg(test)]
mod snapshots;
