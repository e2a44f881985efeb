//! A receiver of one E1.31 universe: which packets of its sources it accepts, and the levels that
//! they make together.
//!
//! A [`Receiver`] is handed datagrams at rising moments, and answers that it took one, or the
//! lowest reason for which it did not. Up to four sources are heard at once, each until 2.5 seconds
//! of silence or its termination; the slots are the greatest of those of the highest priority.
//!
//! And a receiver in words. [`reply_line`] and [`write_numbered_slots`] write behind a number,
//! which is a datagram's own, or that of a script's line; [`slots_line`] and [`end_line`] show the
//! slots at the end of a run. A slot that is 0 is not printed.
//!
//! ```
//! let mut receiver = Receiver::new(1);
//! let taken = receiver.take(0, &datagram);
//! let mut slots = [0; 512];
//! receiver.slots(0, &mut slots);
//! // `slots` are those of the datagram, until it is 2,500 ms old.
//! ```
#![tactic(auto)]

mod answer;
pub mod laws;
mod live;
mod places;
mod receiver;
mod record;
mod replies;
mod slots;

pub use answer::{Ignored, Taken};
pub use receiver::{Receiver, SOURCES};
pub use replies::{ReplyLine, reply_line};
pub use slots::{SlotsLine, end_line, slots_line, write_numbered_slots};
