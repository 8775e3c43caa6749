//! The loop of a connection that takes the items of all channels under credit and writes their frames.
//!
//! It stands on conn_parts, and conn_run stands on it.
#![tactic(auto)]

mod announce;
mod cells;
mod ending;
mod items;
mod laying;
mod places;
mod ready;
mod room;
mod send;
mod step;
mod turns;

pub use send::send_items;
