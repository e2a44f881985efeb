//! `listen` and `watch`: what comes to receivers of universes.
//!
//! [`listen`] takes so many datagrams of one universe, answers each before it waits for the next,
//! and then writes the slots.
//!
//! [`watch`] reads lines from a feed, hands each datagram to a receiver of its universe, and writes
//! what changes: which sources come and go, what they lose, which of them leads, what is ignored,
//! and the slots. Over devices that tell, its contract says exactly what is written.
//!
//! ```
//! let mut feed = MemoryFeed::new(b"0 00\n1000\n", 4096, 0, 0);
//! let mut out = MemoryOutput::new(rt.alloc(), 0, 0);
//! let answer = watch(rt.alloc(), &mut feed, &[1], &mut out);
//! // out.bytes is "1000 0 ignored Unreadable Short 1\n".
//! ```
#![tactic(auto)]

mod fault;
mod ignored;
mod instant;
pub mod laws;
mod line;
mod listening;
mod monitor;
mod monitors;
mod news;
mod print;
mod run;
mod source;
mod sources;
mod stage;
mod text;
mod watching;

pub use listening::listen;
pub use run::watch;
