//! The loop of a connection that writes control frames: partition requests, credit and resumptions.
//!
//! It stands on conn_parts, and conn_run stands on it.
#![tactic(auto)]

mod announce;
mod closing;
mod requests;
mod rounds;
mod step;
mod turns;

pub use announce::send_control;
