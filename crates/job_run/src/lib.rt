//! A run of a job: its pool, its cells and its wires are made, its workers run at once, and what they left is
//! settled and counted.
//!
//! It stands on job_cells, job_deploy, job_workers, job_ends and job_outcome, each of which does one of these, on
//! job_chain for the images from which a run may go on, on snapshot_channel and collecting_worker for what the
//! workers share, and on job_plan for the joined table; `job_cli` stands on it.
#![tactic(auto)]

mod cells;
mod ending;
mod images;
mod inputs;
mod run;
mod stops;
mod tables;
mod wires;
mod workers;

pub use run::run_job;
