//! The words of the command line, and the job that they ask for.
//!
//! [`read_words`] reads the words as `clap` does, and each value by its form; what is refused, what
//! lacks its form and what is asked for by `--help` are told apart.
//!
//! ```
//! let job = read_words(rt.alloc(), ["cueplayer", "check", "night.asc"].as_slice())?;
//! // Job::Check, with the name of the file.
//! ```
#![tactic(auto)]

mod address;
mod arguments;
mod fault;
mod job;
mod line;
mod misfit;
mod number;
mod program;
mod read;
mod source;
mod target;
mod universe_list;

pub use fault::{Unread, WordsFault};
pub use job::{Job, LiveOptions, Name, Night};
pub use misfit::{Form, Misfit};
pub use read::{read_or_explain, read_words};
pub use source::{name_on, source_name};
pub use universe_list::UniverseList;
