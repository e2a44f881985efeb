//! Each listen, each watch and each rehearsal: what it prints on standard output, what a listen
//! remarks on standard error, and how it ends.
//!
//! ```
//! let kind = ErrorKind::BrokenPipe;
//! let mut out = MemoryJobOutput::new(MemoryOutput::new(rt.alloc(), 0, 0), kind);
//! let mut input = MemoryFeed::new(b"", 0, 0);
//! let answer = watch_lines(rt.alloc(), &mut input, &[1], &mut out);
//! // answer.is_ok().
//! ```
#![tactic(auto)]

mod listening;
mod rehearse;

pub use listening::{ListenPlace, listen_at, watch_lines};
pub use rehearse::rehearse_show;
