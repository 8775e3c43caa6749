//! A connection at work: a source, the four loops and a sink, each in a thread of its own, over links that
//! the caller gives. loops_tests tests it over links in memory, and the program benches times it.
#![tactic(auto)]

mod carrying;
mod cells;
mod connection;
mod group;
mod idle;
mod ids;
mod inlet;
mod opening;
mod outlet;
mod pools;
mod shares;
mod sink;
mod source;
mod workers;

pub use connection::{Carried, Plan, carry, open_pool};
pub use ids::ids_of;
pub use pools::CHANNELS_MAX;
pub use sink::Counted;
pub use source::Work;
