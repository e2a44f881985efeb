ghost use Rattle.std.specs.Prelude.{◌<◌, ◌^◌, length};

use crate::blame::faulty_word;
use crate::decimal::push_number;
use crate::line_words::operands;
use crate::notes::Notes;
use crate::skipped::first_bytes;
use ascii_text::{Line, Lines, Words, number};
use show_line::{Keyword, LineFault, Reading, Record, Statement, read_line};
use show_reader::ShowFault;
use std::alloc::{AllocError, Global};

/// Why a show text is refused: each line of it with a fault of its own, with the fault's name and
/// the word that has it; and then the fault that decides.
///
/// The lines below a faulty CUE, GROUP or SUB line are taken as those of a record.
pub fn faulty_lines(alloc: Global, text: &[u8], fault: ShowFault) -> Result<Notes, AllocError>
    requires { length text.now < 2 ^ 32 }
{
    let mut list = Vec::new(alloc);
    let mut owner = None;
    for line in Lines::new(text) {
        let Some(reading) = read_line(owner, line.bytes) else {
            continue;
        };
        if let Statement::Faulty(fault) = reading.statement {
            list.push(faulty_line(alloc, line, reading.keyword, fault)?)?;
        }
        if reading.keyword.is_end() {
            break;
        }
        owner = owner_below(owner, &reading, line.bytes);
    }
    if let Some((number, name)) = decides(fault) {
        list.push(deciding_line(alloc, number, name)?)?;
    }
    Ok(list)
}

// The record that owns the lines below a line: some record of its kind where the line is faulty.
fn owner_below(above: Option<Record>, reading: &Reading<'_>, line: &[u8]) -> Option<Record> {
    if !reading.keyword.may_own() {
        return above;
    }
    if !matches!(reading.statement, Statement::Faulty(_)) || is_foreign(line) {
        return reading.statement.opens();
    }
    match reading.keyword {
        Keyword::Cue => Some(Record::Cue(1000)),
        Keyword::Group => Some(Record::Group(1)),
        Keyword::Sub => Some(Record::Sub(1)),
        _ => None,
    }
}

// Whether the line of a record names a page that is not page 1.
fn is_foreign(line: &[u8]) -> bool {
    let mut words = operands(line);
    let _ = words.next();
    match words.next() {
        Some(page) => number(page).is_some_and(|page| page != 1),
        None => false,
    }
}

fn faulty_line(
    alloc: Global,
    line: Line<'_>,
    keyword: Keyword,
    fault: LineFault,
) -> Result<Vec<u8>, AllocError> {
    let mut text = Vec::new(alloc);
    text.extend_from_slice(b"line ")?;
    push_number(&mut text, u64::from(line.number))?;
    text.extend_from_slice(b": ")?;
    text.extend_from_slice(name_of(fault))?;
    if let Some(word) = faulty_word(keyword, fault, operands(line.bytes)) {
        text.extend_from_slice(b" at `")?;
        text.extend_from_slice(first_bytes(word))?;
        text.push(b'`')?;
    }
    text.extend_from_slice(b": ")?;
    text.extend_from_slice(first_bytes(line.bytes))?;
    Ok(text)
}

fn name_of(fault: LineFault) -> &'static [u8] {
    match fault {
        LineFault::Ident => b"Ident",
        LineFault::MissingNumber => b"MissingNumber",
        LineFault::BadNumber => b"BadNumber",
        LineFault::BadLevel => b"BadLevel",
        LineFault::BadTime => b"BadTime",
        LineFault::HalfPair => b"HalfPair",
        LineFault::HalfTriple => b"HalfTriple",
        LineFault::Limit => b"Limit",
    }
}

// The line of the fault that decides, and the fault's name.
fn decides(fault: ShowFault) -> Option<(u32, &'static [u8])> {
    let (number, fault) = match fault {
        ShowFault::TooLong | ShowFault::Memory => return None,
        ShowFault::Ident(number) => (number, LineFault::Ident),
        ShowFault::MissingNumber(number) => (number, LineFault::MissingNumber),
        ShowFault::BadNumber(number) => (number, LineFault::BadNumber),
        ShowFault::BadLevel(number) => (number, LineFault::BadLevel),
        ShowFault::BadTime(number) => (number, LineFault::BadTime),
        ShowFault::HalfPair(number) => (number, LineFault::HalfPair),
        ShowFault::HalfTriple(number) => (number, LineFault::HalfTriple),
        ShowFault::Limit(number) => (number, LineFault::Limit),
    };
    Some((number, name_of(fault)))
}

fn deciding_line(alloc: Global, number: u32, name: &[u8]) -> Result<Vec<u8>, AllocError> {
    let mut text = Vec::new(alloc);
    text.extend_from_slice(b"check answers line ")?;
    push_number(&mut text, u64::from(number))?;
    text.extend_from_slice(b": ")?;
    text.extend_from_slice(name)?;
    Ok(text)
}
