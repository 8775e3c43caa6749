//! The cells of a job at work: those of each edge's channels and pools, and the passes by which its tasks and
//! loops enter them.
#![tactic(auto)]

mod channels;
mod edge;
mod gates;
mod group;
pub mod laws;
mod lender;
mod open;
mod partitions;
mod parts;
mod pool_cells;
mod pools;
mod span;

pub use edge::{Edge, EdgePasses};
pub use group::cell_of_two;
pub use open::{Grants, Network, open_edges, open_network};
