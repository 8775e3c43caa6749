//! Both ends of one connection on one thread, with a list of frames each way.
//!
//! It stands on the crates of a channel's two ends and of their pools, and the program's scripts stand
//! on it. Contracts see an `Exchange1` as a world of lists, which exchange_world defines: each event
//! does to it what the definition says, and gives its reply.
#![tactic(auto)]

mod connection;
mod exchange;
mod frames;
mod lane;
mod open;
mod pools;
mod receiving;
mod sending;
mod sent;
mod start_fault;

pub use connection::Connection;
pub use exchange::Exchange1;
pub use frames::{ControlFrame, DataFrame};
pub use lane::Lane;
pub use sent::Sent;
pub use start_fault::StartFault;
