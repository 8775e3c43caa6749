//! The workers of a job: its tasks, and the loops of its connections. Each stands in a place, and all run
//! at once.
//!
//! It stands on the crates of the tasks, of the collecting worker and of the loops. Contracts say place by place
//! what a worker leaves there.
#![tactic(auto)]

mod all;
mod collecting;
mod connection;
mod keeping;
mod place;
mod task;

pub use all::{LoopPlace, LoopRow, TaskPlace, TaskRow, run_all};
pub use collecting::{CollectPlace, CollectTask};
pub use connection::{ConnLoop, LoopLeft, LoopWork};
pub use place::{Place, Worker, run_rows};
pub use task::{AggregateTask, SourceTask, StageTask, Task, TaskLeft};
