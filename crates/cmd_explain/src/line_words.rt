ghost use Rattle.std.specs.Prelude.{◌≡◌};
ghost use Rattle.ascii_text.specs.Text.{words_of};
ghost use Rattle.ascii_text.specs.LinesLeft.{words_left};
ghost use Rattle.cmd_explain.specs.Headings.{begins_with_word, operands};

use ascii_text::{Words, same_word};

/// Whether the first word of a line is this one, in small or large letters.
pub fn begins_with_word(line: &[u8], word: &[u8]) -> bool
    ensures { result ≡ begins_with_word word.now (words_of line.now) }
{
    match Words::new(line).next() {
        Some(first) => same_word(first, word),
        None => false,
    }
}

/// The words of a line behind the first.
pub fn operands<'a>(line: &'a [u8]) -> Words<'a>
    ensures { words_left result ≡ operands (words_of line.now) }
{
    let mut words = Words::new(line);
    let _ = words.next();
    words
}
