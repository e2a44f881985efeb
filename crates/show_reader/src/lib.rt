//! A show text, read into a show.
//!
//! [`read_show`] answers the show that the text means at every key, with the lines read and
//! skipped; or the fault of the first faulty line, with its number. [`one_show_law`] says that a
//! text means one show alone, and [`limits_law`] that more room for channels and dimmers changes
//! nothing for a text that needed less.
//!
//! ```
//! let loaded = read_show(rt.alloc(), b"CUE 1\nCHAN 1@FL\nPATCH 1 1<1@FL\nENDDATA\n")?;
//! // loaded.show has one cue and one dimmer; loaded.lines is 4, and loaded.skipped 0.
//! ```
#![tactic(auto)]

mod apply;
mod draft;
mod fault;
mod law;
mod read;

pub use fault::{LONGEST_TEXT, ShowFault};
pub use law::{limits_law, one_show_law};
pub use read::{Loaded, read_show};
