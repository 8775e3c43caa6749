//! What the workers of a job left behind, put together.
#![tactic(auto)]

mod acknowledged;
mod channels;
mod edges;
pub mod laws;
mod left;
mod settling;
mod stages;
mod wires;

pub use acknowledged::settle_snapshots;
pub use channels::settle_channels;
pub use edges::settle_edges;
pub use settling::settle;
