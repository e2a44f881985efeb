//! Tests of the crates that read a show and keep it: `ascii_text`, `show`, `show_line` and
//! `show_reader`, by their public calls.
//!
//! They are a crate of their own, so that the proof of a crate does not wait for its tests, and
//! so that a test sees what any caller sees. `rt test` proves and runs them.
#![tactic(auto)]

#[cfg(test)]
mod tests;
