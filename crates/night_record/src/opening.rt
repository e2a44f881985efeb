ghost use Rattle.std.specs.Prelude.{◌≡◌, length};
ghost use Rattle.night_record.specs.WholeLines.{whole_length};
ghost use Rattle.night_record.specs.Opening.{IsOpening, is_part_of_head};

use crate::head::RecordHead;
use crate::head_lines::head_in;
use crate::unfit::{Unfit, own_head};
use memchr::memrchr;

// A head ends with a moment of so many bytes, its LF included.
const STARTED: usize = 25;

/// Which bytes of a record are lines of a night that goes on.
#[derive(Clone, Copy, Debug, PartialEq, Eq)]
pub struct TakenUp {
    /// So many bytes are its head.
    pub from: usize,
    /// So many bytes are its head and whole lines. A line that was cut stands behind them.
    pub to: usize,
}

/// How a night begins or goes on by what stands in its record.
#[derive(Clone, Copy, Debug, PartialEq, Eq)]
pub enum RecordOpening {
    /// The record has no line, or a part of a head: a night begins in it.
    Begins,
    /// A night goes on behind these lines.
    GoesOn(TakenUp),
}

impl RecordOpening {
    /// How the night of this head begins or goes on by the text of its record.
    ///
    /// # Errors
    ///
    /// Where that is of another night, or of none.
    pub fn of(night: &RecordHead, text: &[u8]) -> Result<RecordOpening, Unfit>
        ensures { IsOpening night.now text.now result }
    {
        let Some(line) = head_in(text) else {
            return if is_part_of_head(night, text) {
                Ok(RecordOpening::Begins)
            } else {
                Err(Unfit::NoRecord)
            };
        };
        match own_head(night, line) {
            Ok(_) => Ok(RecordOpening::GoesOn(TakenUp {
                from: line.len() + 1,
                to: whole_length(text),
            })),
            Err(unfit) => Err(unfit),
        }
    }
}

// How many bytes of a text are in whole lines.
fn whole_length(text: &[u8]) -> usize
    ensures { result ≡ whole_length text.now }
{
    match memrchr(b'\n', text) {
        Some(place) => place + 1,
        None => 0,
    }
}

// Whether a text is a part of a head of this night, begun at any moment.
fn is_part_of_head(night: &RecordHead, text: &[u8]) -> bool
    ensures { result ≡ is_part_of_head night.now text.now }
{
    let head = night.lines();
    let front = &head.as_slice()[..head.len().saturating_sub(STARTED)];
    front.starts_with(text) || (text.starts_with(front) && text.len() < head.len())
}
