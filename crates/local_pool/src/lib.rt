//! Local pools: the share of network memory that one task's result partition or input gate has of
//! the global pool.
//!
//! It stands on segment_pool, turn_cell and flow_defs; tasks, connection loops and the connection
//! core stand on it. A `LocalPool` claims its need when it is opened and holds it until it is closed,
//! and lends up to a limit, for which `share` deals out what the needs leave of the global pool.
//! Threads share one as a `HeldPool` in a turn cell, whose history tells what is lent.
#![tactic(auto)]

mod entry;
mod fault;
mod held;
pub mod laws;
mod local;
mod moves;
mod shares;
mod turns;

pub use entry::PoolEntry;
pub use fault::LocalFault;
pub use held::HeldPool;
pub use local::LocalPool;
pub use shares::{Want, share};
pub use turns::{give_in_turn, request_in_turn};
