ghost use Rattle.std.specs.Prelude.{◌≡◌};
ghost use Rattle.ascii_text.specs.Text.{words_of};
ghost use Rattle.night_record.specs.Moments.{line_moment, where_moment};

use ascii_text::{Words, moment, same_word};

/// The moment of a line, in milliseconds: its first word, where that is one.
pub fn line_moment(line: &[u8]) -> Option<u64>
    ensures { result ≡ line_moment (words_of line.now) }
{
    moment(Words::new(line).next()?)
}

/// The moment of a line that shows where a night is, in milliseconds; `None` of another line.
pub fn where_moment(line: &[u8]) -> Option<u64>
    ensures { result ≡ where_moment (words_of line.now) }
{
    let mut words = Words::new(line);
    let first = words.next()?;
    let second = words.next()?;
    if same_word(second, b"where") {
        moment(first)
    } else {
        None
    }
}
