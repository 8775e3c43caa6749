//! The loop of a connection that reads the frames of all channels and gives their items to the input
//! channels.
//!
//! It stands on conn_parts, and conn_run stands on it.
#![tactic(auto)]

mod cells;
mod channels;
mod message;
mod receive;
mod rounds;
mod turns;

pub use receive::read_items;
