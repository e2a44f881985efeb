ghost use Rattle.std.specs.Prelude.{◌≡◌};
ghost use Rattle.ascii_text.specs.Text.{words_of};
ghost use Rattle.night_record.specs.Asked.{asked_by, asked_by_word};

use ascii_text::{Words, same_word};

/// What a line asks for that is typed while a night follows a main. None moves the light.
#[derive(Clone, Copy, Debug, PartialEq, Eq)]
pub enum Asked {
    /// `take`: the following ends.
    Take,
    /// `where`: where the night is.
    Where,
    /// `help` or `?`.
    Help,
    /// Anything else, which is refused.
    Other,
}

impl Asked {
    /// What a line asks for, or `None` where it has no word.
    pub fn of(line: &[u8]) -> Option<Asked>
        ensures { result ≡ asked_by (words_of line.now) }
    {
        let mut words = Words::new(line);
        let word = words.next()?;
        if words.next().is_some() {
            return Some(Asked::Other);
        }
        Some(Asked::by(word))
    }

    fn by(word: &[u8]) -> Asked
        ensures { result ≡ asked_by_word word.now }
    {
        if same_word(word, b"take") {
            Asked::Take
        } else if same_word(word, b"where") {
            Asked::Where
        } else if same_word(word, b"help") || same_word(word, b"?") {
            Asked::Help
        } else {
            Asked::Other
        }
    }
}
