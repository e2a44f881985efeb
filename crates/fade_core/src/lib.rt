//! Faders: what the level of each channel is, as cues start and time passes.
//!
//! A [`Fader`] is told when cues start and when time passes, at moments that never fall, and
//! answers levels from 0 to 65025, 255 times a byte. [`PlainFader`] keeps a fade for each channel
//! and divides at each question; [`StepFader`] moves all channels by one share of their way and
//! tells which still move. They share no code and keep the one contract of the trait, so nothing
//! above names either.
//!
//! ```
//! let mut fader = StepFader::new(rt.alloc(), 4096)?;
//! let over_five_seconds = Rate { time: 5000, delay: 0 };
//! fader.start(&[(1, 255)], over_five_seconds, over_five_seconds, 0);
//! fader.advance(2500);
//! // fader.level(1) is 32512: half of the way.
//! ```
#![tactic(auto)]

mod channel_fade;
mod digits;
mod fader;
pub mod laws;
mod plain;
mod share;
mod step;
mod target;
mod walk;
mod ways;

pub use fader::Fader;
pub use plain::PlainFader;
pub use show_core::Rate;
pub use step::StepFader;
