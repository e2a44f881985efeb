ghost use Rattle.std.specs.Prelude.{◌≡◌};
ghost use Rattle.std.specs.Option.{option_or};
ghost use Rattle.show_line.specs.Keywords.{value_for, primary_keywords, secondary_keywords};
ghost use Rattle.show_line.specs.Keywords.{keyword_of, may_own, is_end};

use ascii_text::same_word;

/// What the first word of a line makes of it (USITT ASCII 3.0: record keywords, and the keywords
/// that belong to the record above).
#[derive(Clone, Copy, Debug, PartialEq, Eq)]
pub enum Keyword {
    Clear,
    Ident,
    Cue,
    Group,
    Sub,
    Patch,
    EndData,
    /// CONSOLE, MANUFACTURER or SET: it ends a record and has no other effect.
    Setting,
    Chan,
    Up,
    Down,
    FollowOn,
    /// LINK, PART or TEXT: it belongs to a record and has no effect.
    Remark,
    /// A word with exactly one `$` in front, which opens a maker's record.
    Maker,
    /// A word that is no keyword, or has `$$` in front.
    Unknown,
}

impl Keyword {
    /// Whether it is primary or opens a maker's record: the secondary lines below it are its own.
    pub fn may_own(self) -> bool
        ensures { result ≡ may_own self }
    {
        !matches!(
            self,
            Keyword::Chan
                | Keyword::Up
                | Keyword::Down
                | Keyword::FollowOn
                | Keyword::Remark
                | Keyword::Unknown
        )
    }

    /// Whether it is ENDDATA, with which reading ends.
    pub fn is_end(self) -> bool
        ensures { result ≡ is_end self }
    {
        matches!(self, Keyword::EndData)
    }
}

// The secondary keywords come first, since most lines have one of these.
fn find_keyword(word: &[u8]) -> Option<Keyword>
    ensures { result ≡ option_or (value_for secondary_keywords word.now)
        (value_for primary_keywords word.now) }
{
    let keyword = if same_word(word, b"chan") {
        Keyword::Chan
    } else if same_word(word, b"down") {
        Keyword::Down
    } else if same_word(word, b"followon") {
        Keyword::FollowOn
    } else if same_word(word, b"link") {
        Keyword::Remark
    } else if same_word(word, b"part") {
        Keyword::Remark
    } else if same_word(word, b"text") {
        Keyword::Remark
    } else if same_word(word, b"up") {
        Keyword::Up
    } else if same_word(word, b"clear") {
        Keyword::Clear
    } else if same_word(word, b"console") {
        Keyword::Setting
    } else if same_word(word, b"cue") {
        Keyword::Cue
    } else if same_word(word, b"enddata") {
        Keyword::EndData
    } else if same_word(word, b"group") {
        Keyword::Group
    } else if same_word(word, b"ident") {
        Keyword::Ident
    } else if same_word(word, b"manufacturer") {
        Keyword::Setting
    } else if same_word(word, b"patch") {
        Keyword::Patch
    } else if same_word(word, b"set") {
        Keyword::Setting
    } else if same_word(word, b"sub") {
        Keyword::Sub
    } else {
        return None;
    };
    Some(keyword)
}

/// The keyword that a word is, without regard to ASCII case.
pub(crate) fn keyword_of(word: &[u8]) -> Keyword
    ensures { result ≡ keyword_of word.now }
{
    if word.starts_with(b"$$") {
        return Keyword::Unknown;
    }
    if word.starts_with(b"$") {
        return Keyword::Maker;
    }
    find_keyword(word).unwrap_or(Keyword::Unknown)
}
