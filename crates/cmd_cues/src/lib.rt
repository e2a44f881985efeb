//! `cues`: the cue list of a show, as a table for people and as JSON for tools.
//!
//! A row has the number, the label, the times and delays, the follow-on time, and how many channels
//! the record lists. The rows are proved to be those of the show that `check` counts.
//!
//! ```
//! let mut out = MemoryOutput::new(rt.alloc(), 0, 0);
//! let answer = cues_json(rt.alloc(), b"CUE 1 ! dawn\nUP 2.5\n", &mut out);
//! // out.bytes has {"number":"1","label":"dawn","up":2.5,"up_delay":0,"down":2.5, ..
//! ```
#![tactic(auto)]

mod cell;
mod cue_rows;
mod json;
mod label_line;
mod label_part;
mod labels;
mod listing;
mod table;

pub use listing::{cues, cues_json};
