//! A queue of lines in front of an output that holds nobody up.
//!
//! A [`LineQueue`] takes lines and hands them on as far as its [`Pipe`] takes bytes at once. A line
//! for which there is no room is dropped, and a [`Notice`] at its place says how many lines were.
//! An output that may be closed is a [`LineOutput`]. An [`OutputWatch`] says what is to be told of
//! an output, and [`owed_by_outputs`] how many bytes the processes that write the files of outputs
//! still owe.
//!
//! ```
//! let notice = Notice { mark: "! ", lines: "lines" };
//! let mut queue = LineQueue::new(rt.alloc(), pipe, notice)?;
//! queue.put(b"1 go\n");
//! ```
#![tactic(auto)]

mod laws;
mod notice;
mod output;
mod owed;
mod pipe;
mod queue;
mod watch;

pub use laws::notices_law;
pub use notice::{Notice, NoticeText};
pub use output::LineOutput;
pub use owed::{
    GivenBytes, OwedLine, WrittenFile, WrittenFiles, outputs_owed_line, owed_by_outputs,
    record_owed_line,
};
pub use pipe::Pipe;
pub use queue::LineQueue;
pub use watch::{OutputLook, OutputNotice, OutputWatch};
