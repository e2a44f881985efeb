//! A console: a desk whose frames go out as the streams of one source.
//!
//! Open a [`Console`] for a show, and give it orders and ticks, each with its moment. At an
//! accepted tick it offers each universe's frame to a link, and after End the end of its stream;
//! what became of each is in [`Offers`].
//!
//! And a console in words. [`read_call`] reads a whole line with its moment; [`instruction_in`] and
//! [`call_in`] read the words behind one. [`done_line`], [`refused_line`] and [`ticked_line`] write
//! an answer behind a number, which is the call's moment, or a script line's own number;
//! [`reason_line`] writes why something else was not done, [`cue_line`] which cue is current from a
//! moment on, and [`where_line`] where a night is.
//!
//! ```
//! let mut console = Console::<StepFader>::open(rt.alloc(), &show, 1, identity)?;
//! let mut link = MemoryLink::new(rt.alloc(), 0, 0);
//! let go = console.order(0, Instruction::Plain(Command::Go));
//! let ticked = console.tick(0, &mut link);
//! // link.sends holds a packet for each universe that the show patches.
//! let reading = read_call(b"25 goto 13 in 0.5");
//! // Reading::At(25, Call::Order(Instruction::GotoIn { cue: 13000, time: 500 }))
//! let answer = done_line(25);
//! // answer.as_str() is "25 ok\n".
//! ```
#![tactic(auto)]

mod answer;
mod call;
mod console;
mod move_line;
mod offers;
mod reading;
mod tick;
mod whereabouts;

pub use answer::{AnswerLine, done_line, reason_line, refused_line, ticked_line};
pub use call::{Call, call_in, instruction_in};
pub use console::Console;
pub use move_line::{CueLine, CueNumber, cue_line, cue_number};
pub use offers::Offers;
pub use reading::{Reading, read_call};
pub use whereabouts::{WhereLine, where_line};
