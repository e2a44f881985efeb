use thiserror::Error;

/// The most bytes that a show text has: 1 MiB.
pub const LONGEST_TEXT: usize = 1_048_576;

/// Why a show text is refused. The first faulty line decides, and on it the first fault of this
/// list; lines are numbered from 1.
#[derive(Clone, Copy, Debug, PartialEq, Eq, Error)]
pub enum ShowFault {
    /// The text has more than 1,048,576 bytes. Checked before any line.
    #[error("too long")]
    TooLong,
    /// IDENT without a version, or with another than `3:0`.
    #[error("line {0}: IDENT is not 3:0")]
    Ident(u32),
    /// CUE, GROUP, SUB or PATCH without a second word, or UP or DOWN of a cue without one.
    #[error("line {0}: a number is missing")]
    MissingNumber(u32),
    /// A word that must be a number or a cue number (1 to 9999.999) is not.
    #[error("line {0}: not a number")]
    BadNumber(u32),
    /// A word that must be a level is not: a percent to 100, FL, FF, or H and a byte in hex digits.
    #[error("line {0}: not a level")]
    BadLevel(u32),
    /// A time or a delay of a cue is not a time: seconds to 5999.99, or minutes and seconds to
    /// 99:59.99.
    #[error("line {0}: not a time")]
    BadTime(u32),
    /// The words of CHAN are odd in number.
    #[error("line {0}: a channel without a level")]
    HalfPair(u32),
    /// The words of PATCH after the page are not a multiple of three.
    #[error("line {0}: an unfinished triple")]
    HalfTriple(u32),
    /// A number is outside its range (channels to 4096, dimmers to 8192, submasters 1 to 100,
    /// groups 1 to 500), or a CUE line would make the 2,001st cue.
    #[error("line {0}: beyond a limit")]
    Limit(u32),
    /// An allocation failed; it may come before a later faulty line is seen.
    #[error("out of memory")]
    Memory,
}
