//! The worker that collects the snapshots of the tasks of a job, makes an image of each checkpoint and stores it.
//!
//! It stands on job_start, snapshot_channel, collector, channel_state and outside. Contracts see the images that it
//! stored as a list, and what it received, kept and told beside them.
#![tactic(auto)]

mod ahead;
mod gathering;
mod image_store;
pub mod laws;
mod spelling;
mod storing;
mod worker;
mod world;

pub use image_store::ImageStore;
pub use world::{CollectEnd, CollectWorld, collect_images};
