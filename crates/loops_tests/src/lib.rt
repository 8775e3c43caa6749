//! Tests of the loops of a connection, over the built crates: reader_state, conn_parts, conn_send_items, conn_read_control,
//! conn_read_items and conn_send_control each alone, and all four with a source and a sink, as conn_harness
//! runs them.
#![tactic(auto)]

#[cfg(test)]
mod conn_parts_tests;
#[cfg(test)]
mod conn_read_control_tests;
#[cfg(test)]
mod conn_read_items_tests;
#[cfg(test)]
mod conn_send_control_tests;
#[cfg(test)]
mod conn_send_items_tests;
#[cfg(test)]
mod connection_tests;
#[cfg(test)]
mod reader_state_tests;
#[cfg(test)]
mod slow_links;
#[cfg(test)]
mod taps;
