//! The functions that the stages and aggregates of jobs call, and the table in which a program hands
//! them in.
//!
//! Whoever runs or reads a job stands on it. A table takes only functions that are proved to meet the
//! definition of their kind, and tells so of each that is found in it: `specs/Meets.antt` says what
//! that is. Contracts see of a table the kinds that have a function, by the word `kinds`.
#![tactic(auto)]

mod add_fault;
mod agg_fn;
mod aggregates;
mod fn_table;
mod laws;
mod stage_fn;
mod stages;

pub use add_fault::AddFault;
pub use agg_fn::AggFn;
pub use aggregates::{count, max, sum};
pub use fn_table::FnTable;
pub use laws::stages_keep_records_short;
pub use stage_fn::StageFn;
pub use stages::{field, keep, upper, words};
