//! Why a run of the program does not end well, and how its end is reported.
//!
//! Each run answers a [`RunFault`]; [`exit_status`] tells it on standard error, in one line that
//! programs can go by, and gives the status to end with.
//!
//! ```
//! let mut err = MemoryOutput::new(rt.alloc(), 0, 0);
//! let status = exit_status(&Err(RunFault::NoCue), &mut err);
//! // `status` is 3, and err.bytes is "show: NoCue\n".
//! ```
#![tactic(auto)]

mod fault;
mod status;

pub use fault::RunFault;
pub use status::exit_status;
