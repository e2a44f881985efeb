ghost use Rattle.std.specs.Prelude.{◌≡◌, ◌++◌, ◌&&◌, ◌==◌, [], OnOk, length};
ghost use Rattle.ascii_text.specs.Text.{words_of};
ghost use Rattle.cmd_explain.specs.LineNotes.{note_line};
ghost use Rattle.cmd_explain.specs.NumberedLines.{AreNumberedOf, IsNumberedTaken, advice_text};
ghost use Rattle.cmd_explain.specs.NumberedLines.{begins_with_number, is_numbered, list_of};
ghost use Rattle.cmd_explain.specs.NumberedLines.{list_text, numbers_after, run_by, run_text};
ghost use Rattle.cmd_explain.specs.NumberedLines.{note_on_run, subject_text, subject_word};

use crate::decimal::push_number;
use crate::heading::{Heading, is_skipped, is_unknown};
use ascii_text::{Line, Words, number};
use show_line::{Keyword, Statement};
use std::alloc::{AllocError, Global};

/// A PATCH or CHAN line that counts.
#[derive(Clone, Copy)]
pub struct ListLine {
    pub is_patch: bool,
    pub line: u32,
}

/// The lines that begin with a number below a PATCH or CHAN line, and the notes on those further
/// above.
#[derive(Drop)]
pub struct NumberedLines {
    pub list: Option<ListLine>,
    pub numbers: Vec<u32>,
    pub notes: Vec<u8>,
}

impl NumberedLines {
    pub fn new(alloc: Global) -> NumberedLines
        ensures { AreNumberedOf [] result }
    {
        NumberedLines {
            list: None,
            numbers: Vec::new(alloc),
            notes: Vec::new(alloc),
        }
    }

    /// Takes a line that has words: it has this keyword and says this, and this heads it.
    pub fn take(
        &mut self,
        above: Heading,
        line: &Line<'_>,
        keyword: Keyword,
        statement: &Statement<'_>,
    ) -> Result<(), AllocError>
        ensures { OnOk result (IsNumberedTaken above line.now.number keyword statement.now
            (words_of line.now.bytes.now) self.old self.new) }
    {
        if is_numbered(above, keyword, line.bytes) {
            self.numbers.push(line.number)?;
            Ok(())
        } else {
            push_run(&mut self.notes, self.list, self.numbers.as_slice())?;
            self.numbers.clear();
            self.list = list_of(line.number, keyword, statement);
            Ok(())
        }
    }
}

fn is_numbered(above: Heading, keyword: Keyword, line: &[u8]) -> bool
    ensures { result ≡ is_numbered above keyword (words_of line.now) }
{
    is_unknown(above, keyword) && begins_with_number(line)
}

fn begins_with_number(line: &[u8]) -> bool
    ensures { result ≡ begins_with_number (words_of line.now) }
{
    match Words::new(line).next() {
        Some(word) => number(word).is_some(),
        None => false,
    }
}

fn list_of(number: u32, keyword: Keyword, statement: &Statement<'_>) -> Option<ListLine>
    ensures { result ≡ list_of number keyword statement.now }
{
    let is_patch = matches!(keyword, Keyword::Patch);
    let is_list = is_patch || matches!(keyword, Keyword::Chan);
    if is_list && !is_skipped(statement) {
        Some(ListLine {
            is_patch,
            line: number,
        })
    } else {
        None
    }
}

/// Appends the note on numbered lines below a PATCH or CHAN line.
pub fn push_run(
    out: &mut Vec<u8>,
    list: Option<ListLine>,
    numbers: &[u32],
) -> Result<(), AllocError>
    ensures { OnOk result (out.new.items ≡ out.old.items ++ note_on_run list numbers.now) }
{
    match list {
        Some(list) if !numbers.is_empty() => push_run_note(out, list, numbers),
        _ => Ok(()),
    }
}

fn push_run_note(out: &mut Vec<u8>, list: ListLine, numbers: &[u32]) -> Result<(), AllocError>
    ensures { OnOk result (out.new.items
        ≡ out.old.items ++ note_line (run_text list numbers.now)) }
{
    out.extend_from_slice(b"note: ")?;
    push_run_text(out, list, numbers)?;
    out.push(b'\n')?;
    Ok(())
}

fn push_run_text(out: &mut Vec<u8>, list: ListLine, numbers: &[u32]) -> Result<(), AllocError>
    ensures { OnOk result (out.new.items ≡ out.old.items ++ run_text list numbers.now) }
{
    push_subject(out, numbers)?;
    out.extend_from_slice(advice(numbers.len() == 1))?;
    push_list(out, list)?;
    Ok(())
}

fn push_subject(out: &mut Vec<u8>, numbers: &[u32]) -> Result<(), AllocError>
    ensures { OnOk result (out.new.items ≡ out.old.items ++ subject_text numbers.now) }
{
    out.extend_from_slice(subject(numbers.len() == 1))?;
    for number in numbers {
        out.push(b' ')?;
        push_number(out, u64::from(*number))?;
    }
    Ok(())
}

fn subject(is_one: bool) -> &'static [u8]
    ensures { result.now ≡ subject_word is_one }
{
    if is_one { b"line" } else { b"lines" }
}

fn advice(is_one: bool) -> &'static [u8]
    ensures { result.now ≡ advice_text is_one }
{
    if is_one {
        b": skipped, as it begins with a number: join it to the "
    } else {
        b": skipped, as they begin with a number: join them to the "
    }
}

fn push_list(out: &mut Vec<u8>, list: ListLine) -> Result<(), AllocError>
    ensures { OnOk result (out.new.items ≡ out.old.items ++ list_text list) }
{
    out.extend_from_slice(if list.is_patch { b"PATCH" } else { b"CHAN" })?;
    out.extend_from_slice(b" line ")?;
    push_number(out, u64::from(list.line))?;
    Ok(())
}
