//! The words that all crates of the exchange share: lists and bytes that grow, words of a command
//! line, tables of keys and values, and the cutting of bytes into lines.
//!
//! It stands on no other crate. Its `specs/` hold the definitions of records, lines, aggregates and
//! tables, which the contracts of the crates above cite. Contracts see a `ListOf` and `Bytes` as a
//! list with the room that is left in it, a `Word` as the list of its bytes, and a `Table` as a
//! finite map.
#![tactic(auto)]

mod aggregates;
mod bytes;
mod cause;
mod geometry;
mod image;
mod job;
mod lines;
mod list_of;
mod parcel;
mod routes;
mod table;
mod task;
mod word;

pub use aggregates::{fold_value, key_len, value_of};
pub use bytes::Bytes;
pub use cause::{Cause, PeerFault};
pub use image::{Image, Saved, Snapshot, TakeRun};
pub use job::{AggKind, Exchange, Job, Mode, SOURCES_MAX, STAGES_MAX, Stage, StageKind, TASKS_MAX};
pub use lines::cut_line;
pub use list_of::ListOf;
pub use parcel::Parcel;
pub use routes::{needed, route};
pub use table::{Row, Table};
pub use task::{BarrierKind, ChannelId, Head, TaskId};
pub use word::Word;

/// The largest number of bytes in a record.
pub const RECORD_MAX: usize = 1_048_576;
