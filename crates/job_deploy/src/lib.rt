//! Puts the workers of a job into their places: each task with its input or its gate, its result partition
//! and its passes for checkpoints, and the loops of each connection with their halves of a wire.
//!
//! It stands on job_cells, which has the cells and their passes, and on job_workers, which runs what stands
//! in the places.
#![tactic(auto)]

mod loops;
mod order;
mod places;
mod prepare;
mod senders;
mod shared;
mod span;
mod split;
mod stops;
mod takers;
mod tasks;

pub use places::{Deployed, deploy};
pub use shared::Shared;
pub use span::tasks_needed;
pub use stops::stops_needed;
