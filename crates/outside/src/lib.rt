//! The world as the program sees it: files that are found by their names, sources that are read,
//! sinks that are written to, keepers of images, and links between two workers. Each is a trait, with a
//! form in memory, and but for keepers and links a real one. Beside them are the cell that stops all
//! workers once one has met a fault, the cell that tells them which image was stored last, and the
//! pauses of loops that wait.
//!
//! It stands on flow_defs, turn_cell and the kit's crossbeam_utils. Contracts see
//! what a thing tells of its bytes, which is nothing where it is a real one, and its count of faults: a
//! call fails only where that count rises in it.
#![tactic(auto)]

mod bells;
mod dir_files;
mod files;
mod keeper;
mod last_image;
mod link_turns;
mod links;
mod memory_files;
mod memory_in;
mod memory_keeper;
mod memory_links;
mod memory_out;
mod memory_sink;
mod memory_source;
mod pause;
mod ring;
mod sink;
mod source;
mod std_sink;
mod stop;
mod waiting;
mod wires;

pub use dir_files::{DirFiles, DirSource};
pub use files::{Files, FindFault};
pub use keeper::{KeepFault, Keeper, Kept};
pub use last_image::{LastImage, Stored, collector_alone_stores, look_for_stored, tell_stored};
pub use links::{LinkIn, LinkOut};
pub use memory_files::{MemoryFile, MemoryFiles};
pub use memory_in::MemoryIn;
pub use memory_keeper::MemoryKeeper;
pub use memory_links::MemoryLinks;
pub use memory_out::MemoryOut;
pub use memory_sink::MemorySink;
pub use memory_source::MemorySource;
pub use pause::{PAUSES, Pause};
pub use ring::{LINK_ROOM, LinkEntry, Ring};
pub use sink::Sink;
pub use source::{Failed, Source};
pub use std_sink::StdSink;
pub use stop::{StopEntry, StopState, look_for_stop, tell_cause, tell_stop, tell_stop_if_first};
pub use wires::{Links, PairFault, Wire};
