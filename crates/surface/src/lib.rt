//! Acceptance tests of the public surface, written from the specification alone: each public item by
//! its crate, name, argument order and types, and the worked rows that are rows on library calls.
//!
//! A test here sees what any caller sees, and gives a trait's calls alone where it has a device of
//! its own. `rt test` proves and runs them.
#![tactic(auto)]

#[cfg(test)]
mod tests;
