//! The readers of a connection as its loops share them: the credit of each channel, the queue of those
//! that can send, and what came too early.
//!
//! It stands on credit_reader and turn_cell, and the connection loops of the sending end stand on it.
//! Contracts see a `ReaderState` as a `Ledger`, and each turn as the entry that it adds to the history
//! for which the ledger stands.
#![tactic(auto)]

mod entry;
pub mod laws;
mod settle;
mod state;
mod turned;
mod turns;

pub use entry::ReaderEntry;
pub use state::{Early, ReaderState};
pub use turns::{
    look_for_overdue, next_to_announce, next_to_send, take_credit, take_request, take_resumption,
    tell_ready, tell_sent,
};
