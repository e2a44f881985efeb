//! Tests of the crates that the program's subcommands are: `cmd_faults`, `cmd_show`, `cmd_listen`,
//! `cmd_explain`, `cmd_cues`, `cmd_play`, `cmd_live` and `cmd_rehearse`; of the jobs over them,
//! `job_devices`, `show_jobs` and `stream_jobs`; and of how a night opens, `night_opening`. All by
//! their public calls.
//!
//! They are a crate of their own, so that the proof of a crate does not wait for its tests, and
//! so that a test sees what any caller sees. `rt test` proves and runs them.
#![tactic(auto)]

#[cfg(test)]
mod tests;
