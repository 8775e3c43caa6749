//! What the four loops of a connection have in common: what they are lent, how they write whole frames
//! and read them, how they tell of a fault, and what their accounts are made of.
//!
//! It stands on the crates of both ends, and the loops stand on it.
#![tactic(auto)]

mod incoming;
pub mod laws;
mod outgoing;
mod places;
mod pools;
mod share;
mod watch;

pub use incoming::{Incoming, drain};
pub use outgoing::{OUT_ROOM, Outgoing, close_link};
pub use places::place_of;
pub use pools::{give_segment, request_segment};
pub use share::{ConnShare, LoopEnd, SharePasses};
pub use watch::Watch;
