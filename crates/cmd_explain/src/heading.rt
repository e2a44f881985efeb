ghost use Rattle.std.specs.Prelude.{◌≡◌, if◌then◌else◌};
ghost use Rattle.show_line.specs.Keywords.{may_own};
ghost use Rattle.show_reader.specs.Meaning.{is_skipped};
ghost use Rattle.cmd_explain.specs.Headings.{heading_of, skipped_heading, is_unknown, owner_of};

use show_line::{Keyword, Record, Statement};

/// What heads a line: the nearest line above it that is primary or opens a maker's record.
#[derive(Clone, Copy, Debug)]
pub enum Heading {
    /// A line that opened this record.
    Opened(Record),
    /// A line that opened a maker's record.
    Maker,
    /// A line of another page.
    OtherPage,
    /// A line that opened nothing; or there is no such line.
    Nothing,
}

/// Whether a statement counts as skipped.
pub fn is_skipped(statement: &Statement<'_>) -> bool
    ensures { result ≡ is_skipped statement.now }
{
    matches!(statement, Statement::Skipped)
}

/// Whether a line of this keyword is skipped as one of an unknown keyword.
pub fn is_unknown(above: Heading, keyword: Keyword) -> bool
    ensures { result ≡ is_unknown above keyword }
{
    matches!(keyword, Keyword::Unknown) && !matches!(above, Heading::Maker)
}

impl Heading {
    /// What a line that may own is to the lines that it heads.
    pub fn of(keyword: Keyword, statement: &Statement<'_>) -> Heading
        ensures { result ≡ heading_of keyword statement.now }
    {
        if let Some(record) = statement.opens() {
            Heading::Opened(record)
        } else if is_skipped(statement) {
            Heading::of_skipped(keyword)
        } else {
            Heading::Nothing
        }
    }

    fn of_skipped(keyword: Keyword) -> Heading
        ensures { result ≡ skipped_heading keyword }
    {
        match keyword {
            Keyword::Maker => Heading::Maker,
            Keyword::Clear => Heading::Nothing,
            _ => Heading::OtherPage,
        }
    }

    /// What heads the line below a line that this heads.
    pub fn below(self, keyword: Keyword, statement: &Statement<'_>) -> Heading
        ensures { result ≡ if may_own keyword then heading_of keyword statement.now else self }
    {
        if keyword.may_own() {
            Heading::of(keyword, statement)
        } else {
            self
        }
    }

    /// The record that owns the lines that it heads.
    pub fn owner(self) -> Option<Record>
        ensures { result ≡ owner_of self }
    {
        match self {
            Heading::Opened(record) => Some(record),
            _ => None,
        }
    }
}
