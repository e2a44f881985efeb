ghost use Rattle.std.specs.Prelude.{◌≡◌};
ghost use Rattle.ascii_text.specs.Text.{words_of};
ghost use Rattle.live_input.specs.Reasons as reasons;

use ascii_text::{Words, moment, same_word};

/// Why a typed line was refused. Where more than one holds, the first counts.
#[derive(Clone, Copy, Debug, PartialEq, Eq)]
pub enum Reason {
    /// It has more than 200 bytes with its moment.
    Long,
    /// It stands behind an `end` or a `leave`.
    Ending,
    /// It has no words but those that keys sent.
    Keys,
    /// It begins with a moment.
    Moment,
    /// Something stands behind `go`.
    Go,
    /// Something stands behind another word that stands alone.
    Alone,
    /// `goto` lacks its cue.
    Goto,
    /// `sub` or `group` lacks its number or its level.
    Numbered,
    /// `master` lacks its level.
    Master,
    /// Its first word is no command.
    Unknown,
}

impl Reason {
    /// What is wrong and what would do, without a LF.
    pub fn text(self) -> &'static str
        ensures { result.now ≡ reasons.refusal_text self }
    {
        match self {
            Reason::Long => "a line has at most 200 bytes with its moment",
            Reason::Ending => "the night is ending",
            Reason::Keys => "arrow and function keys do nothing; help lists the commands",
            Reason::Moment => "moments are given by the clock; type the command alone",
            Reason::Go => "go takes no number; goto 4 goes to a cue",
            Reason::Alone => "back, end, leave, where and help stand alone",
            Reason::Goto => "goto wants a cue number, and may have a time: goto 4.5, goto 4.5 in 3",
            Reason::Numbered => "sub and group want a number and a level: sub 3 50, group 1 FL",
            Reason::Master => "master wants a level: master 50, master FL, master H80",
            Reason::Unknown => "no such command; help lists the commands",
        }
    }
}

// Why a line of no more than 200 bytes is no command.
pub fn reason_of(line: &[u8]) -> Reason
    ensures { result ≡ reasons.refusal_reason (words_of line.now) }
{
    match Words::new(line).next() {
        Some(word) => reason_at(word),
        None => Reason::Keys,
    }
}

fn reason_at(word: &[u8]) -> Reason
    ensures { result ≡ reasons.reason_at word.now }
{
    if moment(word).is_some() {
        Reason::Moment
    } else if same_word(word, b"go") {
        Reason::Go
    } else if stands_alone(word) {
        Reason::Alone
    } else if same_word(word, b"goto") {
        Reason::Goto
    } else if same_word(word, b"sub") || same_word(word, b"group") {
        Reason::Numbered
    } else if same_word(word, b"master") {
        Reason::Master
    } else {
        Reason::Unknown
    }
}

fn stands_alone(word: &[u8]) -> bool
    ensures { result ≡ reasons.stands_alone word.now }
{
    same_word(word, b"back")
        || same_word(word, b"end")
        || same_word(word, b"leave")
        || same_word(word, b"where")
        || same_word(word, b"help")
        || same_word(word, b"?")
}
