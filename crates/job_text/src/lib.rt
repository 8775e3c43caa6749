//! What the program is told in texts: the words of its command line, and the text of a job.
//!
//! It stands on flow_defs for the types of a job, on stage_fns for the kinds that have a function, and
//! on the crate `clap`, which takes the values out of the words of an accepted command. Contracts say
//! of each text whether it is in its grammar and what it then means, and else which fault is its
//! first; the program decides nothing else by a text.
#![tactic(auto)]

mod fault;
mod job;
mod known;
pub mod laws;
mod lines;
mod options;
mod parser;
mod shape;
mod spelling;
mod words;

pub use fault::{JobFault, JobReadFault};
pub use job::{read_grammar, read_job};
pub use shape::{JobShape, StageShape, read_shape};
pub use words::{Command, LINES_MAX, RunOptions, UsageKind, WordFault, read_words};
