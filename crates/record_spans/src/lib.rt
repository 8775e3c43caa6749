//! Records over pieces of bytes: `write_span` lays a record down in one buffer after another, and a
//! `Reader` gives the records again, in whatever pieces their bytes come. `are_records` tells of two
//! pieces whether they are records end to end.
//!
//! It stands on flow_defs, whose definitions say what a record's encoding is. The sending tasks lay
//! down, the receiving ones read, and images are asked whether what they save is records. Contracts see a `Reader` as the bytes that it was fed and has
//! not given as records.
#![tactic(auto)]

mod pieces;
mod reader;
mod write;

pub use pieces::are_records;
pub use reader::{NextFault, Reader};
pub use write::write_span;
