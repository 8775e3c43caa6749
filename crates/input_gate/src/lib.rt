//! The gate of a task: many channels, from which it takes lines and barriers, as by Flink's input gates.
//! A `CellGate` takes turns at the cells of its channels, and a buffer that it polled goes back in the
//! same call.
//!
//! It stands on input_channel, record_spans and local_pool; the tasks stand on it. Contracts see a gate as
//! its `Account`: what it gave of each channel, in order.
#![tactic(auto)]

mod cell_gate;
mod gate;
mod lane;
mod laws;
mod lender;
mod passes;
mod rest;
mod round;
mod rounds;
mod turns;

pub use cell_gate::CellGate;
pub use gate::{Gate, GateEnd, GateItem};
pub use laws::lines_are_polled;
pub use passes::{GateEnds, GatePasses, InputCell, InputPass, NoGate};
