//! Each job over a show: what it prints on standard output, and how it ends, with which remark; and
//! who sends in a night.
//!
//! A job prints by its run, as [`check_show`] by `check`, and ends with a remark on what it found,
//! or with what is told of the fault of the run.
//!
//! ```
//! let kind = ErrorKind::BrokenPipe;
//! let mut out = MemoryJobOutput::new(MemoryOutput::new(rt.alloc(), 0, 0), kind);
//! let answer = check_show(rt.alloc(), b"CUE 1\nENDDATA\n", false, &mut out);
//! // out.output.bytes is "lines 2 cues 1 subs 0 groups 0 dimmers 0 skipped 0\n", and the remark is
//! // empty.
//! ```
#![tactic(auto)]

mod check;
mod levels;
mod list;
mod seeming;
mod source;

pub use check::check_show;
pub use levels::{CueLook, CueSlots, look_at, show_slots};
pub use list::{explain_show, list_cues};
pub use seeming::seeming_remark;
pub use source::identity;
