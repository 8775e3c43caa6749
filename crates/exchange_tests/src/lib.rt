//! Tests of what an exchange is made of, over the built crates: net_frames, segment_pool, local_pool,
//! subpartition, input_channel and exchange_core.
#![tactic(auto)]

#[cfg(test)]
mod exchange_core_tests;
#[cfg(test)]
mod input_channel_tests;
#[cfg(test)]
mod local_pool_tests;
#[cfg(test)]
mod net_frames_tests;
#[cfg(test)]
mod one_pass;
#[cfg(test)]
mod segment_pool_tests;
#[cfg(test)]
mod subpartition_tests;
#[cfg(test)]
mod subpartition_turns;
