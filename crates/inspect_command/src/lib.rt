//! The command `inspect`: the last image of a keeper, to the lines that are shown of it.
//!
//! It stands on channel_state, image_lines and command_parts; `commands` stands on it.
#![tactic(auto)]

pub mod inspect;
