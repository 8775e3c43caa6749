//! A connection: the four loops that carry the items of all channels of one edge over two links, under
//! credit.
//!
//! At the sending end `send_items` takes items and writes them, and `read_control` reads requests,
//! credit and resumptions. At the receiving end `read_items` reads items and gives them to the input
//! channels, and `send_control` announces credit and resumptions. Each stands in a crate of its own.
#![tactic(auto)]

pub mod laws;

pub use conn_parts::{ConnShare, LoopEnd, SharePasses};
pub use conn_read_control::read_control;
pub use conn_read_items::read_items;
pub use conn_send_control::send_control;
pub use conn_send_items::send_items;
pub use reader_state::ReaderState;
