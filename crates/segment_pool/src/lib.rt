//! Network memory: a pool of segments of one size, all made when it is opened, which threads claim
//! and give back by turns.
//!
//! It stands on turn_cell and flow_defs; local pools, buffers and channels stand on it. What a pool
//! has lent is what its passes have claimed and not given back, and what is free and lent together is
//! the total at every turn. `specs/` says so in terms of the history of the pool's turn cell.
#![tactic(auto)]

mod calls;
mod close;
mod open;
mod pass;
mod places;
mod pool;
mod segment;
mod stock;
mod turns;

pub use calls::Counts;
pub use close::StillLent;
pub use pass::PoolPass;
pub use pool::Pool;
pub use segment::{SEGMENT_MAX, SEGMENT_MIN, Segment};
pub use stock::{Dealing, SEGMENTS_MAX, Stock, Terms};
