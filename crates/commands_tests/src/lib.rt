//! Tests of the commands over files, keepers and outputs in memory, which fail where a test has them fail. What the program prints for
//! words and files is shown by the sessions in tests/cases.
#![tactic(auto)]

#[cfg(test)]
mod checkpoint_tests;
#[cfg(test)]
mod held_files;
#[cfg(test)]
mod inspect_tests;
#[cfg(test)]
mod tests;
