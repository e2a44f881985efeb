//! The record of a night, as text: how its bytes part in lines as they come, and what a night does
//! by what stands in it.
//!
//! [`NightLines`] parts what comes, of a record that another process writes or of what is typed, in
//! lines, and [`RecordKind`] says how such a record is opened and read. [`RecordOpening`] says whether a night begins in a record or goes on
//! behind it, and what of it is kept; [`own_head`] and [`main_head`] whether it may be taken up or
//! followed; [`Asked`] what is typed meanwhile; and [`is_silent`] when a main is followed no more.
//!
//! The head of a record are the first two lines of its file, which say whose night it is.
//! [`RecordHead::lines`] writes them, each with its LF, and [`RecordHead::read`] reads them without
//! the last one: what was written is read back, and no other text is read. Both are comments to
//! `play`, which takes lines of at most 200 bytes.
//!
//! ```text
//! ! cueplayer record 1: show SHA256HEX
//! ! cid UUID, priority P, base U, name NAME, started MOMENT
//! ```
//!
//! The checksum and the CID are in small letters, the UUID is hyphenated, and the numbers have no
//! zeros in front. The name is what stands between `, name ` and the last 34 bytes, `, started `
//! and the moment: so it may hold commas, and has at most 63 bytes. A name with an LF would make
//! three lines of the head; what comes before that LF is read as no head.
//!
//! ```
//! let mut lines = NightLines::new();
//! lines.take_up(b"0 tick\n25 t");
//! while let Some(line) = lines.next_line() { .. }
//! ```
#![tactic(auto)]

mod asked;
mod difference;
mod head;
mod head_lines;
mod lines;
mod moment;
mod night_opening;
mod opening;
mod read;
mod record_kind;
mod silence;
mod typed_input;
mod unfit;

pub use asked::Asked;
pub use difference::Difference;
pub use head::{HeadLines, HeadName, RecordHead};
pub use head_lines::{FirstLines, first_lines, head_in, kept_line};
pub use lines::{LineFront, NightLines};
pub use moment::{line_moment, where_moment};
pub use night_opening::NightOpening;
pub use opening::{RecordOpening, TakenUp};
pub use record_kind::{RecordKind, RecordRead, count_of_failed_read};
pub use silence::{Lead, is_silent, silence_of};
pub use typed_input::input_has_ended;
pub use unfit::{Unfit, UnfitMain, main_head, main_lines, own_head, own_lines};
