//! Tests of lines, records and texts, over the built crates: flow_defs, record_spans, job_plan,
//! job_text, script_text and line_generator.
#![tactic(auto)]

#[cfg(test)]
mod credit_reader_tests;
#[cfg(test)]
mod flow_defs_tests;
#[cfg(test)]
mod job_plan_tests;
#[cfg(test)]
mod job_text_tests;
#[cfg(test)]
mod line_generator_tests;
#[cfg(test)]
mod record_spans_tests;
#[cfg(test)]
mod script_text_tests;
#[cfg(test)]
mod stage_fns_tests;
