//! The playback of a cue list: go, back, goto and follow-ons, over any fader.
//!
//! A [`Playback`] is asked for moves, each at its moment, and is refused exactly where there is no
//! such cue; [`Playback::advance`] makes the moves that have fallen due, each at its own moment. It
//! keeps no show, so each call is handed the same one. [`Place::follow`] walks the moves that are
//! due without making them.
//!
//! ```
//! let mut playback = Playback::<StepFader>::new(rt.alloc())?;
//! let cue = playback.go(&show, 0);
//! playback.advance(&show, 1000);
//! // `cue` is the show's first; playback.level(1) is what it makes of channel 1 in a second.
//! ```
#![tactic(auto)]

pub mod laws;
mod place;
mod playback;

pub use place::Place;
pub use playback::{NoMove, Playback};
