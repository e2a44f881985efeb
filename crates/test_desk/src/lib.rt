//! Tests of the crates that play a show, by their public calls: `fade`, `playback`, `masters`,
//! `patch` and `desk`; and of those that take an operator's lines and rehearse a night: `console`,
//! `live_input`, `cmd_rehearse` and `rehearsal`.
//!
//! They are a crate of their own, so that the proof of a crate does not wait for its tests, and
//! so that a test sees what any caller sees. `rt test` proves and runs them.
#![tactic(auto)]

#[cfg(test)]
mod tests;
