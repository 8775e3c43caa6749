//! The loop of a connection that reads control frames and gives credit and resumptions to the readers.
//!
//! It stands on conn_parts, and conn_run stands on it.
#![tactic(auto)]

mod cells;
mod control;
mod end;
mod message;
mod rounds;
mod sizes;

pub use control::read_control;
