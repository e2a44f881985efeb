//! The tables of a show: cues, submasters, groups and the patch, and the calls that build and read
//! them.
//!
//! A [`Show`] is four finite maps to whoever reads its contracts. A call that builds is refused by
//! `Limit` or out of memory, and a refusal leaves the show as it was. Numbers of cues are in
//! thousandths, levels are bytes, times are milliseconds.
//!
//! ```
//! let mut show = Show::new(rt.alloc());
//! show.open_cue(1500)?;
//! show.set_patch(1, 1, 255)?;
//! if show.cue(1500).is_some() {
//!     show.cue_level(1500, 1, 128)?;
//!     // show.look_slots(1500, 0) has 128 in its first slot: the cue at full.
//! }
//! ```
#![tactic(auto)]

mod cue;
mod cue_table;
mod fault;
mod heap_cue;
mod levels;
mod limits;
mod many;
mod master_table;
mod patch_table;
mod place;
mod rate;
mod show;
mod slots;
mod table;

pub use cue::{Cue, CueTime};
pub use fault::BuildFault;
pub use levels::Levels;
pub use limits::{
    CHANNELS, CUES, DIMMERS, GROUPS, LONGEST_TIME, SLOTS, SUBMASTERS, TOP_CUE, UNIVERSES,
};
pub use rate::Rate;
pub use show::{Counts, Show};
pub use slots::{Frame, slot};
