//! From where the tasks of a job go on: behind no checkpoint at its beginning, and else from what the image of a
//! checkpoint holds of each.
//!
//! It stands on `plain_machine`. The channel of snapshots is opened for a start, and each task and the worker that
//! collects go on from it.
#![tactic(auto)]

mod start;

pub use start::Start;
