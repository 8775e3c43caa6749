//! Writes the records of a task to the channels of the edge that it sends on.
#![tactic(auto)]

mod channel;
mod channels;
mod part;
mod partition;
mod router;
mod supply;
mod turns;
mod writer;

pub use partition::{Partition, PartitionPasses};
pub use writer::{NoWriter, RecordWriter, WriterStopped};
