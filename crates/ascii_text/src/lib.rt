//! The lines of a show text, their words, and what the forms of words spell.
//!
//! [`Lines`] parts a text, and [`Words`] a line: the slices that they give are the text's own, so
//! nothing is copied. A form such as [`level`] or [`time`] has a value exactly where its spelling
//! has one. Which forms a line wants is not known here. The lines of an input that comes byte by
//! byte are those of its whole text (`laws`).
//!
//! ```
//! let line = Lines::new(b"CUE 1.5 ! the lamp\n").next().unwrap();
//! let mut words = Words::new(line.bytes);
//! let keyword = words.next().unwrap();
//! let cue = words.next().and_then(cue_number);
//! // same_word(keyword, b"cue") holds, and `cue` is Some(1500).
//! ```
#![tactic(auto)]

mod forms;
pub mod laws;
mod scan;
mod text;

pub use forms::{cue_number, level, moment, number, same_word, time, whole};
pub use text::{Line, Lines, Words};
