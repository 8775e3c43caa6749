//! Tests of tasks, each alone and over the built crates: record_writer, input_gate, task_taking, source_task, stage_task and
//! aggregate_task.
#![tactic(auto)]

#[cfg(test)]
mod aggregate_task_tests;
#[cfg(test)]
mod barriers_tests;
#[cfg(test)]
mod input_gate_tests;
#[cfg(test)]
mod lent;
#[cfg(test)]
mod list_gate;
#[cfg(test)]
mod record_writer_tests;
#[cfg(test)]
mod source_task_tests;
#[cfg(test)]
mod stage_task_tests;
#[cfg(test)]
mod task_taking_tests;
#[cfg(test)]
mod two_sources;
