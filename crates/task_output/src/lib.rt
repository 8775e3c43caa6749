//! What a task that takes checkpoints sends: on the channels of its edge records, and the barriers of
//! checkpoints between them; and its snapshots to the worker that collects them.
//!
//! It stands on record_writer, snapshot_channel and checkpoint_laws, and the tasks stand on it. Contracts see
//! a writer, the count of records emitted by it, and of each channel what was put from one barrier to the
//! next.
#![tactic(auto)]

mod acks;
mod ending;
pub mod laws;
mod looking;
mod output;
mod world;

pub use acks::{Acks, base_of};
pub use ending::{end_sender, end_task};
pub use looking::{LooksForStop, StopLook, TaskStopped};
pub use output::TaskOutput;
pub use world::{TaskEnd, World, WorldPasses};
