ghost use Rattle.std.specs.Prelude.{◌≡◌, Some, None, MatchResult, IfSome};
ghost use Rattle.ascii_text.specs.LinesLeft.{words_left};
ghost use Rattle.ascii_text.specs.Text.{words_of};
ghost use Rattle.show_line.specs.declared.statement.Record.{Record};
ghost use Rattle.show_line.specs.Faults.{number_fault, cue_fault};
ghost use Rattle.show_line.specs.Keywords.{value_for};
ghost use Rattle.show_line.specs.Pairs.{desk_limits};
ghost use Rattle.show_line.specs.Said.{cleared_names, clear_said, ident_said, record_said, on_page};
ghost use Rattle.show_line.specs.Said.{cue_named, group_named, sub_named, patch_said, owned_said};
ghost use Rattle.show_line.specs.Said.{levels_said, time_said, rate_read, follow_read};
ghost use Rattle.show_line.specs.Said.{statement_in, line_reading};
ghost use Rattle.show_line.specs.Sound.{IsSound};

use crate::fault::{LineFault, number_in};
use crate::keyword::{Keyword, keyword_of};
use crate::pairs::Pairs;
use crate::statement::{Cleared, Record, Statement, Table};
use crate::triples::Triples;
use ascii_text::{Words, cue_number, number, same_word, time};
use show_core::{CueTime, GROUPS, Rate, SUBMASTERS};

/// A line that has words: what its first word makes of it, and what it says.
#[derive(Debug, Drop)]
pub struct Reading<'a> {
    pub keyword: Keyword,
    pub statement: Statement<'a>,
}

/// Reads a line of a show text, without its LF. `owner` is the record that owns it: the one that
/// the nearest line above whose keyword may own opened, if it opened one. `None` where the line has
/// no words. The numbers of what it says are in the ranges of a show.
pub fn read_line<'a>(owner: Option<Record>, line: &'a [u8]) -> Option<Reading<'a>>
    ensures means { result ≡ line_reading desk_limits owner (words_of line.now) }
    ensures sound { IfSome result (λ reading. IsSound reading.statement) }
{
    let mut words = Words::new(line);
    let keyword = keyword_of(words.next()?);
    Some(Reading {
        keyword,
        statement: statement(owner, keyword, words.rest()),
    })
}

// What a line says that has this keyword, and these bytes behind it.
fn statement<'a>(owner: Option<Record>, keyword: Keyword, operands: &'a [u8]) -> Statement<'a>
    ensures { result ≡ statement_in desk_limits owner keyword (words_of operands.now) }
{
    match keyword {
        Keyword::Clear => clear_statement(operands),
        Keyword::Ident => ident_statement(operands),
        Keyword::Cue => cue_statement(operands),
        Keyword::Group => group_statement(operands),
        Keyword::Sub => sub_statement(operands),
        Keyword::Patch => patch_statement(operands),
        Keyword::EndData | Keyword::Setting => Statement::Quiet,
        Keyword::Chan => chan_statement(owner, operands),
        Keyword::Up => time_statement(owner, rate(operands).map(CueTime::Up)),
        Keyword::Down => time_statement(owner, rate(operands).map(CueTime::Down)),
        Keyword::FollowOn => time_statement(owner, follow_time(operands).map(CueTime::Follow)),
        Keyword::Remark if owner.is_some() => Statement::Quiet,
        Keyword::Remark | Keyword::Maker | Keyword::Unknown => Statement::Skipped,
    }
}

fn clear_statement<'a>(operands: &'a [u8]) -> Statement<'a>
    ensures { result ≡ clear_said (words_of operands.now) }
{
    let mut words = Words::new(operands);
    match (words.next(), words.next()) {
        (Some(what), None) => match find_cleared(what) {
            Some(cleared) => Statement::Clears(cleared),
            None => Statement::Skipped,
        },
        _ => Statement::Skipped,
    }
}

// What the word behind CLEAR names.
fn find_cleared(word: &[u8]) -> Option<Cleared>
    ensures { result ≡ value_for cleared_names word.now }
{
    if same_word(word, b"all") {
        Some(Cleared::All)
    } else if same_word(word, b"cue") || same_word(word, b"cues") {
        Some(Cleared::Only(Table::Cues))
    } else if same_word(word, b"group") || same_word(word, b"groups") {
        Some(Cleared::Only(Table::Groups))
    } else if same_word(word, b"sub") || same_word(word, b"subs") {
        Some(Cleared::Only(Table::Subs))
    } else if same_word(word, b"patch") {
        Some(Cleared::Only(Table::Patch))
    } else {
        None
    }
}

fn ident_statement<'a>(operands: &'a [u8]) -> Statement<'a>
    ensures { result ≡ ident_said (words_of operands.now) }
{
    match Words::new(operands).next() {
        Some(version) if same_word(version, b"3:0") => Statement::Quiet,
        _ => Statement::Faulty(LineFault::Ident),
    }
}

fn cue_statement<'a>(operands: &'a [u8]) -> Statement<'a>
    ensures { result ≡ record_said cue_fault cue_named (words_of operands.now) }
{
    let mut words = Words::new(operands);
    match words.next() {
        Some(word) => {
            let cue = cue_number(word).map(Record::Cue);
            on_page(cue.ok_or(LineFault::BadNumber), words)
        }
        None => Statement::Faulty(LineFault::MissingNumber),
    }
}

fn group_statement<'a>(operands: &'a [u8]) -> Statement<'a>
    ensures { result ≡ record_said (number_fault 1 500) group_named (words_of operands.now) }
{
    let mut words = Words::new(operands);
    match words.next() {
        Some(word) => on_page(number_in(word, 1, GROUPS).map(Record::Group), words),
        None => Statement::Faulty(LineFault::MissingNumber),
    }
}

fn sub_statement<'a>(operands: &'a [u8]) -> Statement<'a>
    ensures { result ≡ record_said (number_fault 1 100) sub_named (words_of operands.now) }
{
    let mut words = Words::new(operands);
    match words.next() {
        Some(word) => on_page(number_in(word, 1, SUBMASTERS).map(Record::Sub), words),
        None => Statement::Faulty(LineFault::MissingNumber),
    }
}

// A record line, by what its number names and the words behind the number: a page may be next.
fn on_page<'a>(named: Result<Record, LineFault>, mut words: Words<'a>) -> Statement<'a>
    ensures { MatchResult named
        (λ r. result ≡ on_page None r (words_left words.entry))
        (λ fault. (r : Record) → result ≡ on_page (Some fault) r (words_left words.entry)) }
{
    let page = match words.next() {
        Some(word) => number(word).ok_or(LineFault::BadNumber),
        None => Ok(1),
    };
    match (named, page) {
        (Ok(record), Ok(1)) => Statement::Opens(record),
        (Ok(_), Ok(_)) => Statement::Skipped,
        (Ok(_), Err(fault)) | (Err(fault), Ok(_)) => Statement::Faulty(fault),
        (Err(a), Err(b)) => Statement::Faulty(a.lower(b)),
    }
}

fn patch_statement<'a>(operands: &'a [u8]) -> Statement<'a>
    ensures { result ≡ patch_said desk_limits (words_of operands.now) }
{
    let mut words = Words::new(operands);
    let Some(page) = words.next() else {
        return Statement::Faulty(LineFault::MissingNumber);
    };
    match number(page) {
        None => Statement::Faulty(LineFault::BadNumber),
        Some(1) => match Triples::new(words.rest()) {
            Ok(triples) => Statement::Patches(triples),
            Err(fault) => Statement::Faulty(fault),
        },
        Some(_) => Statement::Skipped,
    }
}

fn chan_statement<'a>(owner: Option<Record>, operands: &'a [u8]) -> Statement<'a>
    ensures { result ≡ owned_said owner (levels_said desk_limits (words_of operands.now)) }
{
    let Some(record) = owner else {
        return Statement::Skipped;
    };
    match Pairs::new(operands) {
        Ok(pairs) => Statement::Levels(record, pairs),
        Err(fault) => Statement::Faulty(fault),
    }
}

// A line that times its cue, by what its words spell.
fn time_statement<'a>(owner: Option<Record>, time: Result<CueTime, LineFault>) -> Statement<'a>
    ensures { result ≡ owned_said owner (time_said time) }
{
    match owner {
        Some(Record::Cue(n)) => match time {
            Ok(time) => Statement::SetsTime(n, time),
            Err(fault) => Statement::Faulty(fault),
        },
        Some(Record::Group(_) | Record::Sub(_)) => Statement::Quiet,
        None => Statement::Skipped,
    }
}

// The rate that the words of UP or DOWN spell.
fn rate(operands: &[u8]) -> Result<Rate, LineFault>
    ensures { result ≡ rate_read (words_of operands.now) }
{
    let mut words = Words::new(operands);
    let first = words.next().ok_or(LineFault::MissingNumber)?;
    let delay = match words.next() {
        Some(second) => time(second),
        None => Some(0),
    };
    match (time(first), delay) {
        (Some(time), Some(delay)) => Ok(Rate { time, delay }),
        _ => Err(LineFault::BadTime),
    }
}

// The time that the words of FOLLOWON spell.
fn follow_time(operands: &[u8]) -> Result<u32, LineFault>
    ensures { result ≡ follow_read (words_of operands.now) }
{
    match Words::new(operands).next() {
        Some(word) => time(word).ok_or(LineFault::BadTime),
        None => Err(LineFault::MissingNumber),
    }
}
