//! `play`: the lines of an input, carried out by a console as they come.
//!
//! [`play`] reads lines with moments from a feed, offers packets to a link and writes an answer for
//! each line. Over devices that tell, its contract says exactly which packets were offered and what
//! was written. [`perform`] carries out one call; a live night stands on it too.
//!
//! ```
//! let mut feed = MemoryFeed::new(b"0 go\n0 tick\n", 4096, 0, 0);
//! let mut link = MemoryLink::new(rt.alloc(), 0, 0);
//! let mut out = MemoryOutput::new(rt.alloc(), 0, 0);
//! let show = b"CUE 1\nCHAN 1@FL\nPATCH 1 1<1@FL\nENDDATA\n";
//! let (feed, link, out) = (&mut feed, &mut link, &mut out);
//! let answer = play::<StepFader, _, _, _>(rt.alloc(), show, identity, 1, feed, link, out);
//! // out.bytes is "0 ok\n0 live 1:s0\n".
//! ```
#![tactic(auto)]

mod carry;
mod fault;
mod line;
mod lines;
mod performance;
mod run;
mod stage;

pub use performance::{Answer, Performed, perform};
pub use run::{open, play};
