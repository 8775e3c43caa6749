//! What the evaluations of a job share: the limits of its sources, what makes it ready to run, what a
//! stage gives for a record, the counts of the aggregate, and how tables are joined.
#![tactic(auto)]

mod apply;
mod counts;
mod joins;
mod limits;

pub use apply::apply_stage;
pub use counts::Counts;
pub use joins::{fold_rows, lend_rows};
pub use limits::SOURCE_MAX;
