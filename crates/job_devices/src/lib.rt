//! What a job has of the machine, as contracts see it: an output that is standard output, and a
//! source that is a socket, each of which knows why the system did not do what was asked.
//!
//! Each has a device over memory beside it, for tests.
//!
//! ```
//! let mut out = MemoryJobOutput::new(MemoryOutput::new(rt.alloc(), 0, 1), ErrorKind::BrokenPipe);
//! let answer = out.write(b"one ");
//! // answer.is_err(), and out.failure() is Some(ErrorKind::BrokenPipe).
//! ```
#![tactic(auto)]

mod memory;
mod output;
mod source;

pub use memory::{MemoryJobOutput, MemoryJobSource};
pub use output::JobOutput;
pub use source::JobSource;
