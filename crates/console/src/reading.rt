ghost use Rattle.std.specs.Prelude.{◌≡◌};
ghost use Rattle.console.specs.Spelling.{reading_of};

use crate::call::{Call, call_in};
use ascii_text::{Words, moment};

/// What an input line spells.
#[derive(Clone, Copy, Debug, PartialEq, Eq)]
pub enum Reading {
    /// No call: the line has no words.
    Blank,
    /// No form of a call fits the words.
    Malformed,
    /// A call at a moment, of 1 to 15 digits, in milliseconds.
    At(u64, Call),
}

/// Reads an input line, without its LF. A `!` cuts the line.
pub fn read_call(line: &[u8]) -> Reading
    ensures { result ≡ reading_of line.now }
{
    let mut words = Words::new(line);
    let Some(first) = words.next() else {
        return Reading::Blank;
    };
    match (moment(first), call_in(&mut words)) {
        (Some(moment), Some(call)) => Reading::At(moment, call),
        _ => Reading::Malformed,
    }
}
