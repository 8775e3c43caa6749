//! The text of a script: the events that drive both ends of one connection, step by step, and what is
//! replied to each.
//!
//! It stands on flow_defs, and the exchange on one thread stands on it. Contracts say of each text
//! whether it is a script's and of which script, and else which of its lines is the first bad one; and
//! of each reply which lines tell it.
#![tactic(auto)]

mod event;
mod fault;
pub mod laws;
mod lines;
mod reader;
mod reply;
mod script;
mod spelling;

pub use event::{CHANNELS_MAX, Event, FILL_MAX, SIZE_MAX, SIZE_MIN, Script, TEXT_MAX, TOTAL_MAX};
pub use fault::ScriptFault;
pub use reply::{Reply, write_reply};
pub use script::read_script;
