//! The desk: the commands and ticks of a console, each refusal, and the frames at the latest tick.
//!
//! A [`Desk`] is opened for a show, whose copy it keeps. A call is refused by the lowest reason that
//! applies and then changes nothing; [`Desk::slots`] are what the show means at the latest tick
//! under the instructions before it. Ticks are at least 23 ms apart, and moments are milliseconds.
//!
//! ```
//! let mut desk = Desk::<StepFader>::open(rt.alloc(), &show, 1)?;
//! let go = desk.command(0, Command::Go);
//! let ticked = desk.tick(0);
//! let later = desk.tick(25);
//! // desk.current() is the show's first cue; desk.slots(1) is its universe's frame at 25 ms.
//! ```
#![tactic(auto)]

mod answer;
mod command;
mod desk;
mod frames;
mod instruction;
mod kept;

pub use answer::{Refused, Ticked};
pub use command::Command;
pub use desk::{Desk, ENDING_TICKS, MOMENTS, SHORTEST_GAP};
pub use instruction::Instruction;
