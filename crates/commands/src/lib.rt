//! The commands, from their words to a status: `top` is the program over the world that it is handed; what it answers and
//! writes is said by its contract, in the words of `specs/Run.antt`, `specs/SelfRuns.antt` and those of the crates of the
//! commands.
//!
//! It stands on job_command, script_command, inspect_command and the crates of the texts; `job_cli` is the program.
#![tactic(auto)]

pub mod program;
pub mod run;
pub mod selfrun;
pub mod top;
