ghost use Rattle.std.specs.Prelude.{◌≡◌, ◌++◌, OnOk};
ghost use Rattle.ascii_text.specs.LinesLeft.{words_left};
ghost use Rattle.cmd_explain.specs.Reasons.{page_in, record_page_in, reason_of, reason_text};
ghost use Rattle.cmd_explain.specs.Reasons.{unknown_under, secondary_under};

use crate::heading::Heading;
use ascii_text::{Words, number};
use itoa::Buffer;
use show_line::Keyword;
use std::alloc::AllocError;

/// Why a line is skipped.
#[derive(Clone, Copy, Debug)]
pub enum Reason {
    /// Its first word is no keyword, or has `$$` in front.
    UnknownKeyword,
    /// It opens a maker's record, or belongs to one.
    MakersRecord,
    /// It is of this page, which is not page 1.
    Page(u32),
    /// It is a CLEAR that names no tables.
    UnknownClear,
    /// It belongs to a line of another page.
    SkippedRecord,
    /// It belongs to no cue, group or submaster.
    NoRecord,
}

/// Why a line is skipped that this heads, by its keyword and the words behind it.
pub fn reason_of(above: Heading, keyword: Keyword, operands: Words<'_>) -> Reason
    ensures { result ≡ reason_of above keyword (words_left operands.entry) }
{
    match keyword {
        Keyword::Maker => Reason::MakersRecord,
        Keyword::Clear => Reason::UnknownClear,
        Keyword::Patch => Reason::Page(page_in(operands)),
        Keyword::Cue | Keyword::Group | Keyword::Sub => Reason::Page(record_page_in(operands)),
        Keyword::Unknown => unknown_under(above),
        _ => secondary_under(above),
    }
}

fn page_in(mut operands: Words<'_>) -> u32
    ensures { result ≡ page_in (words_left operands.entry) }
{
    match operands.next() {
        Some(page) => number(page).unwrap_or(0),
        None => 1,
    }
}

fn record_page_in(mut operands: Words<'_>) -> u32
    ensures { result ≡ record_page_in (words_left operands.entry) }
{
    match operands.next() {
        Some(_) => page_in(operands),
        None => 1,
    }
}

fn unknown_under(above: Heading) -> Reason
    ensures { result ≡ unknown_under above }
{
    match above {
        Heading::Maker => Reason::MakersRecord,
        _ => Reason::UnknownKeyword,
    }
}

fn secondary_under(above: Heading) -> Reason
    ensures { result ≡ secondary_under above }
{
    match above {
        Heading::Maker => Reason::MakersRecord,
        Heading::OtherPage => Reason::SkippedRecord,
        _ => Reason::NoRecord,
    }
}

impl Reason {
    /// Appends the reason in words.
    pub fn push_to(self, text: &mut Vec<u8>) -> Result<(), AllocError>
        ensures { OnOk result (text.new.items ≡ text.old.items ++ reason_text self) }
    {
        match self {
            Reason::UnknownKeyword => text.extend_from_slice(b"unknown keyword"),
            Reason::MakersRecord => text.extend_from_slice(b"of a maker's record"),
            Reason::Page(page) => {
                text.extend_from_slice(b"of page ")?;
                text.extend_from_slice(Buffer::new().format(page).as_bytes())
            }
            Reason::UnknownClear => text.extend_from_slice(b"an unknown CLEAR"),
            Reason::SkippedRecord => text.extend_from_slice(b"of a record that is skipped"),
            Reason::NoRecord => text.extend_from_slice(b"of no record"),
        }
    }
}
