//! Masters: the bytes of the submasters, the groups and the grand master, and the level that they
//! make a channel.
//!
//! Each master is that of the last setting that was accepted; a setting is refused exactly where
//! the show has no such record. [`Masters::merged`] is the greatest of the playback's level and of
//! byte times master over all records, and [`Masters::write_floors`] writes that of every channel
//! over a dark playback.
//!
//! ```
//! let mut masters = Masters::new();
//! let answer = masters.set_sub(&show, 1, 255);
//! // Where the show has submaster 1 with channel 1 at 128: masters.merged(&show, 1, 0) is 32640.
//! ```
#![tactic(auto)]

mod fault;
mod floors;
mod highest;
mod masters;

pub use fault::NoMaster;
pub use masters::Masters;
