//! A record, and where a main is watched, over memory: they tell what happened, and some of their
//! calls fail.

mod kept;
mod main_watch;
mod played_record;
mod standing_lines;

pub use main_watch::MemoryWatch;
pub use played_record::MemoryPlayedRecord;
pub use standing_lines::StandingLines;
