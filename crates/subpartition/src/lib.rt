//! A subpartition: what stands to be sent on one channel, in the order in which it travels.
//!
//! A task puts buffers, barriers and the end behind one another, and a connection takes them from the
//! front. Contracts see a subpartition as a `Queue`. It is the state of a turn cell, whose history of
//! entries says what was put and what was taken; the laws of such histories are in `laws`. Nothing but
//! `Subpartition::new` takes memory.
#![tactic(auto)]

mod entry;
mod item;
pub mod laws;
mod subpartition;
mod turned;

pub use entry::SendEntry;
pub use item::{Filled, Item};
pub use subpartition::Subpartition;
