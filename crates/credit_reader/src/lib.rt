//! The sending end of credit-based flow control: the readers of one connection's channels, their
//! credit, and the queue of those that can send.
//!
//! It stands on flow_defs, and the connection loops stand on it. Contracts see `Readers` as the list of
//! its readers, in the order of their channels, and the queue as a list of channels.
#![tactic(auto)]

mod fault;
pub mod laws;
mod places;
mod reader;
mod readers;

pub use fault::{CreditFault, RequestFault, ResumeFault};
pub use reader::{CREDIT_MAX, Reader, SentKind, Told};
pub use readers::Readers;
