//! `explain`: the lines of a show text that are skipped, each with its reason, and notes for its
//! author.
//!
//! Each skipped line gets a line with its number, the reason and its text, and lines that begin
//! with `note: ` follow. The lines are proved to be those that `check` counts as skipped; and each
//! note is proved to be printed exactly where it holds, but for those on misspelt keywords, which
//! are tested.
//!
//! ```
//! let mut out = MemoryOutput::new(rt.alloc(), 0, 0);
//! let answer = explain(rt.alloc(), b"WHAT 1\nENDDATA\n", &mut out);
//! // out.bytes begins with "line 1: unknown keyword: WHAT 1\n".
//! ```
#![tactic(auto)]

mod blame;
mod channels;
mod cue_parts;
mod decimal;
mod distance;
mod encoding;
mod explanation;
mod faulty;
mod heading;
mod line_notes;
mod line_words;
mod misspelt;
mod note_lines;
mod notes;
mod numbered_lines;
mod openings;
mod part_notes;
mod patch_notes;
mod reason;
mod seeming;
mod show_notes;
mod skipped;
mod weight;

pub use decimal::{push_decimal, push_number};
pub use explanation::explain;
pub use line_words::begins_with_word;
pub use openings::{is_emptied, is_same_record, table_of};
pub use seeming::seems;
pub use show_notes::cue_numbers;
pub use skipped::{display_byte, push_display_text};
pub use weight::{Weight, weigh};
