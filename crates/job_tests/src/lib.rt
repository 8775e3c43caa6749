//! Tests of what a job in threads is made of, over the built crates: job_cells, job_ends and job_workers.
#![tactic(auto)]

#[cfg(test)]
mod job_cells_tests;
#[cfg(test)]
mod job_ends_tests;
#[cfg(test)]
mod job_workers_tests;
