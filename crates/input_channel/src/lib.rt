//! The receiving end of a channel. A frame's data wait here in a buffer until the task's gate polls
//! them, with the barriers and the end in line, and each data frame that the announced credit allows
//! finds a free buffer.
//!
//! It stands on segment_pool and turn_cell; the gate and the connection loops stand on it. Contracts
//! see an `InputChannel` as a `ChannelState`, and a call as the entry that it adds to the history for
//! which the channel stands.
#![tactic(auto)]

mod arrival;
mod channel;
mod entry;
mod fault;
mod held;
pub mod laws;
mod parts;
mod polled;
mod queue;
mod segments;

pub use arrival::{Arrival, ArrivalKind};
pub use channel::{InputChannel, NoRoom};
pub use entry::{Gave, ReceiveEntry};
pub use fault::AcceptFault;
pub use held::HeldBuf;
pub use polled::Polled;
pub use segments::Segments;
