//! A lock that gives turns in the order of tickets, and keeps the history of what was done in them.
//!
//! What threads share lies in a `TurnCell`. It stands on atomic_table and flow_defs, and all crates
//! with threads stand on it. A history is a list of pairs: the number of a pass, and the entry of one
//! of its turns. It exists in proofs alone. CALLING.md has a whole caller.
#![tactic(auto)]

mod cell;
mod close;
mod enter;
mod gather;
mod make;
mod meet;
mod news;
mod owned_turn;
mod pass;
mod rule;
mod steps;
mod turn;
mod turned;

pub use cell::TurnCell;
pub use make::Refused;
pub use news::have_news;
pub use owned_turn::OwnedTurn;
pub use pass::Pass;
pub use turn::Turn;
pub use turned::{Named, Turned};
