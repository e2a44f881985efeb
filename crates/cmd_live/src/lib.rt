//! `live`: a night by the clock. What is typed is carried out by a console at the moment at which
//! it comes, ticks are made by themselves, and the operator sees answers and moves.
//!
//! A [`Night`] is opened for a show. It begins with nothing, with a cue at full, or behind the
//! record of a night that broke off, or follows a [`MainConsole`]; then it is run from a [`Booth`]:
//! its clock, what is typed, the record and the screen. Over a booth and a link that tell, its
//! contract says exactly which packets were offered, what was recorded and what was shown, for
//! whatever bytes came and whatever the clock said.
//!
//! Two [`MainConsole`]s take lines from a record that another process writes. [`Spare`] stands by
//! for the night of its own record: it gives the lines of a [`PlayedRecord`], and then an end,
//! once the lock of the record is had and each of its lines was given. [`Backup`] follows the
//! record of its main: it gives the lines that come where a main is watched ([`MainWatch`]), once
//! each is kept; it answers what is typed meanwhile, and ends where the main is silent or gone, or
//! where `take` was typed. What is over memory ([`memory`]) tells what happened to it, and stands
//! in for files in tests.
//!
//! ```
//! // A booth at which `go`, `where` and `end` are typed, at 1,510 ms.
//! let mut night: Night<StepFader> = Night::open(rt.alloc(), show, identity, 1)?;
//! let answer = night.live(0, &mut booth, &mut link);
//! // It recorded "0 tick\n25 tick\n.." and showed this:
//! // 1510 ok
//! // 1510 cue 1
//! // 1510 where cue 1 next 2 master 255
//! // 1510 ok
//! // 1600 ok
//! ```
#![tactic(auto)]

mod backup;
mod beginning;
mod booth;
mod carry;
mod follow;
mod laws;
mod main_console;
mod main_watch;
pub mod memory;
mod night;
mod place;
mod played_record;
mod run;
mod silent;
mod spare;

pub use backup::{Backup, Ending};
pub use booth::{Booth, Heard};
pub use follow::Pause;
pub use laws::{following_law, spare_law};
pub use main_console::{Led, MainConsole};
pub use main_watch::{MainDeed, MainEvent, MainWatch};
pub use night::Night;
pub use played_record::{PlayedRecord, RecordEvent};
pub use silent::Silent;
pub use spare::Spare;
