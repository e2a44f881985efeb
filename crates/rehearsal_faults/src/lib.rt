//! Why a rehearsal cannot begin.
//!
//! A [`Fault`] is what its consoles and receivers lack before anything is rehearsed; of several
//! the first is answered. The faults have a crate of their own, so that what reports the end of a
//! run stands on nothing of a rehearsal.
//!
//! ```
//! let told = format!(in rt.alloc(); "{}", Fault::NoShow)?;
//! // `told` is "a console has no show".
//! ```
#![tactic(auto)]

mod fault;

pub use fault::Fault;
