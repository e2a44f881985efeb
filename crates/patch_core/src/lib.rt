//! The patch: the frames of the universes, and the slot-wise greatest of two frames.
//!
//! A [`Rig`] is a show's patch, made ready to draw. A frame has the slot of each patched dimmer,
//! worked out from its channel's level, the grand master and its own byte, and 0 elsewhere.
//! [`Rig::draw`] draws all frames, whose slots stand in a row; [`Rig::redraw`] the slots whose
//! channels have moved.
//!
//! ```
//! let rig = Rig::new(rt.alloc(), &show, 1)?;
//! let mut slots = [0; 8192];
//! let mut levels = [0; 4096];
//! levels[0] = 65025;
//! rig.draw(&mut slots, &levels, 255);
//! // Where channel 1 is patched to dimmer 1 at full: slots[0] is 255.
//! ```
#![tactic(auto)]

mod draw;
mod fault;
mod greatest;
mod index;
mod rig;
mod slots;
mod sources;

pub use fault::RigFault;
pub use greatest::max_into;
pub use rig::{Rig, TOP_UNIVERSE, has_numbers};
