//! Tests of the crates that send and receive, and of those at the edge of the program:
//! `byte_reading`, `devices`, `cmd_live`, `line_queue`, `live_machine`, `network_tables`,
//! `night_files`, `night_record`, `packet_paths`, `sacn_packet`, `sacn_source`, `sacn_receiver` and
//! `targets`, by their public calls.
//!
//! They are a crate of their own, so that the proof of a crate does not wait for its tests, and
//! so that a test sees what any caller sees. `rt test` proves and runs them.
#![tactic(auto)]

#[cfg(test)]
mod tests;
