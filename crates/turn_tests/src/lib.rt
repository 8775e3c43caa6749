//! Callers of turn cells: what several threads do to one state, and what is known of it afterwards.
//!
//! It stands on turn_cell, flow_defs and fixtures, and nothing stands on it. turn_cell's CALLING.md quotes `sum.rt`.
#![tactic(auto)]

mod crowd;
mod held;
mod journal;
mod looking;
mod overlap;
mod sum;
#[cfg(test)]
mod tests;
mod threads;
mod waking;

pub use crowd::add_in_crowd;
pub use held::{Held, add_step, add_two_steps};
pub use journal::{Journal, Written, shows, write, write_and_meet, write_and_read};
pub use looking::{look_alone, looks_tell, rest_alone};
pub use overlap::{Never, Quiet, turns_overlap};
pub use sum::{Added, Sum, add_one, end};
pub use threads::{add_by_four, add_by_one, add_by_two};
pub use waking::sleep_and_wake;
