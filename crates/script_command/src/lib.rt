//! The command `script`: the events of a script in a file, to what is replied to them.
//!
//! It stands on exchange_core, script_text and command_parts; `commands` stands on it.
#![tactic(auto)]

pub mod script;
