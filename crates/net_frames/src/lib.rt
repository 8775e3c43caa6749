//! Frames: how a connection's messages lie in its bytes. `encode` lays a frame down, and `decode`
//! finds the frame that bytes begin with.
//!
//! It stands on flow_defs, and the connection loops stand on it. Its `specs/` say what the numbers of
//! each kind are, their one spelling, and which fault comes of bytes that begin with no frame.
#![tactic(auto)]

mod decoding;
mod encoding;
mod fault;
mod frame;
mod kind;
pub mod laws;

pub use decoding::{Decoded, Span, decode};
pub use encoding::encode;
pub use fault::FrameFault;
pub use frame::{
    ArrivalKind2, CREDIT_MAX, ERROR_MAX, Frame, LEN_MAX, LEN_MIN, MAGIC, SIZE_MAX, SIZE_MIN,
};
