ghost use Rattle.std.specs.Prelude.{◌≡◌, MatchResult};
ghost use Rattle.ascii_text.specs.Forms.{number_of};
ghost use Rattle.show_line.specs.Faults.{rank_of, lower, number_fault, level_fault};

use ascii_text::{level, number};
use thiserror::Error;

/// What can be wrong with a line. Of several faults of one line the first of this list is answered,
/// whatever the order of its words.
#[derive(Clone, Copy, Debug, PartialEq, Eq, Error)]
pub enum LineFault {
    /// IDENT without a version, or with another than `3:0`.
    #[error("IDENT is not 3:0")]
    Ident = 2,
    /// A line that needs a number or a time has none.
    #[error("a number is missing")]
    MissingNumber = 3,
    /// A word that must be a number or a cue number is not.
    #[error("not a number")]
    BadNumber = 4,
    /// A word that must be a level is not.
    #[error("not a level")]
    BadLevel = 5,
    /// A time or a delay of a cue is not a time.
    #[error("not a time")]
    BadTime = 6,
    /// The words of CHAN are odd in number.
    #[error("a channel without a level")]
    HalfPair = 7,
    /// The words of PATCH after the page are not a multiple of three.
    #[error("an unfinished triple")]
    HalfTriple = 8,
    /// A number is outside its range.
    #[error("beyond a limit")]
    Limit = 9,
}

impl LineFault {
    fn rank(self) -> u8
        ensures { result ≡ rank_of self }
    {
        self as u8
    }

    /// The fault that is answered of two.
    pub(crate) fn lower(self, other: LineFault) -> LineFault
        ensures { Some result ≡ lower (Some self) (Some other) }
    {
        if other.rank() < self.rank() {
            other
        } else {
            self
        }
    }
}

/// The fault that is answered of two.
pub(crate) fn lower(a: Option<LineFault>, b: Option<LineFault>) -> Option<LineFault>
    ensures { result ≡ lower a b }
{
    match (a, b) {
        (Some(a), Some(b)) => Some(a.lower(b)),
        (a, None) => a,
        (None, b) => b,
    }
}

/// The number from `least` to `most` that a word must be, or the fault of the word.
pub(crate) fn number_in(word: &[u8], least: u16, most: u16) -> Result<u16, LineFault>
    ensures { MatchResult result
        (λ n. (number_fault least most word.now ≡ None) × (number_of word.now ≡ Some n))
        (λ fault. number_fault least most word.now ≡ Some fault) }
{
    match number(word) {
        None => Err(LineFault::BadNumber),
        Some(n) if n < u32::from(least) || u32::from(most) < n => Err(LineFault::Limit),
        Some(n) => Ok(n as u16),
    }
}

/// The fault of a word that must be a number from `least` to `most`.
pub(crate) fn number_fault(word: &[u8], least: u16, most: u16) -> Option<LineFault>
    ensures { result ≡ number_fault least most word.now }
{
    number_in(word, least, most).err()
}

/// The fault of a word that must be a level.
pub(crate) fn level_fault(word: &[u8]) -> Option<LineFault>
    ensures { result ≡ level_fault word.now }
{
    match level(word) {
        None => Some(LineFault::BadLevel),
        Some(_) => None,
    }
}
