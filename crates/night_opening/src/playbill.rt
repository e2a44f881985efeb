use cmd_words::Night;
use sacn_source::Identity;

/// What the words say of a live night.
#[derive(Clone, Copy)]
pub struct LiveWords<'a> {
    /// The file that it is recorded in.
    pub record_file: Option<&'a str>,
    /// A night may go on in that file.
    pub resumes: bool,
    /// It stands by for the night of its own record.
    pub is_spare: bool,
    /// The cue that it starts in, in thousandths.
    pub start: Option<u32>,
    /// The night that it follows.
    pub main: Option<MainWords<'a>>,
    /// It ends where its input ends.
    pub ends_with_input: bool,
}

/// Whose night is followed: the name of its record, and how long it may be silent, in milliseconds.
#[derive(Clone, Copy)]
pub struct MainWords<'a> {
    pub file: &'a str,
    pub patience: u32,
}

/// A night that is to be played: its words, the text of its show, and who sends.
#[derive(Clone, Copy)]
pub struct Playbill<'w, 's> {
    pub night: &'w Night,
    pub words: LiveWords<'w>,
    pub show: &'s [u8],
    pub source: Identity,
}
