//! `check`, `look` and `slots`: what each writes of a show, and how it ends.
//!
//! What a run writes is made whole and then handed to its output by one call.
//!
//! ```
//! let mut out = MemoryOutput::new(rt.alloc(), 0, 0);
//! let answer = check(rt.alloc(), b"CUE 1\nENDDATA\n", &mut out);
//! // out.bytes is "lines 2 cues 1 subs 0 groups 0 dimmers 0 skipped 0\n".
//! ```
#![tactic(auto)]

mod levels;
mod runs;
mod texts;

pub use levels::slots;
pub use runs::{check, look};
