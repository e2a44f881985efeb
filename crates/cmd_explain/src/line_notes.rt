ghost use Rattle.std.specs.Prelude.{◌≡◌, ◌+◌, ◌++◌, codes, decimal, nat_lt, take, OnOk};
ghost use Rattle.ascii_text.specs.Text.{words_of};
ghost use Rattle.cmd_explain.specs.Headings.{operands};
ghost use Rattle.cmd_explain.specs.LineNotes.{link_target, is_followed, way_text};
ghost use Rattle.cmd_explain.specs.LineNotes.{link_by, cue_link_text, unfollowed_text};
ghost use Rattle.cmd_explain.specs.LineNotes.{link_text, link_note_on, has_decimal_comma};
ghost use Rattle.cmd_explain.specs.LineNotes.{is_decimal, note_on, comma_text, comma_note_on};
ghost use Rattle.cmd_explain.specs.LineNotes.{times_on, times_text, delay_text, rate_text};
ghost use Rattle.cmd_explain.specs.LineNotes.{hour_text, hour_note_on, hour_by};
ghost use Rattle.cmd_explain.specs.Skipped.{display_text};

use crate::decimal::{push_decimal, push_number};
use crate::heading::Heading;
use crate::line_words::{begins_with_word, operands};
use crate::skipped::{first_bytes, push_display_text};
use ascii_text::cue_number;
use show_core::{CueTime, Rate, Show};
use show_line::{Record, Statement};
use std::alloc::AllocError;

/// The times that a line gives to a cue, in milliseconds. FOLLOWON has no delay.
#[derive(Clone, Copy)]
pub struct LineTimes {
    pub time: u32,
    pub delay: Option<u32>,
}

// An hour in milliseconds.
const HOUR: u64 = 3_600_000;

/// Appends the note on a LINK line that this heads, where it has one.
pub fn push_link(
    out: &mut Vec<u8>,
    show: &Show,
    number: u32,
    above: Heading,
    line: &[u8],
) -> Result<(), AllocError>
    ensures { OnOk result (out.new.items
        ≡ out.old.items ++ link_note_on show.now number above (words_of line.now)) }
{
    let Heading::Opened(Record::Cue(cue)) = above else {
        return Ok(());
    };
    if !begins_with_word(line, b"link") || show.cue(cue).is_none() {
        return Ok(());
    }
    push_link_by(out, number, cue, link_target(line), show.next(cue))
}

fn push_link_by(
    out: &mut Vec<u8>,
    number: u32,
    cue: u32,
    to: Option<u32>,
    next: Option<u32>,
) -> Result<(), AllocError>
    ensures { OnOk result (out.new.items ≡ out.old.items ++ link_by number cue to next) }
{
    if is_followed(to, next) {
        return Ok(());
    }
    push_front(out, number)?;
    push_cue_link(out, cue, to, next)?;
    out.push(b'\n')?;
    Ok(())
}

fn push_cue_link(
    out: &mut Vec<u8>,
    cue: u32,
    to: Option<u32>,
    next: Option<u32>,
) -> Result<(), AllocError>
    ensures { OnOk result (out.new.items ≡ out.old.items ++ cue_link_text cue to next) }
{
    out.extend_from_slice(b"cue ")?;
    push_decimal(out, cue)?;
    out.extend_from_slice(b": ")?;
    push_link_text(out, to, next)?;
    Ok(())
}

// The cue that the second word of a line names.
fn link_target(line: &[u8]) -> Option<u32>
    ensures { result ≡ link_target (operands (words_of line.now)) }
{
    match operands(line).next() {
        Some(word) => cue_number(word),
        None => None,
    }
}

fn is_followed(to: Option<u32>, next: Option<u32>) -> bool
    ensures { result ≡ is_followed to next }
{
    match (to, next) {
        (Some(to), Some(next)) => to == next,
        _ => false,
    }
}

fn push_link_text(out: &mut Vec<u8>, to: Option<u32>, next: Option<u32>) -> Result<(), AllocError>
    ensures { OnOk result (out.new.items ≡ out.old.items ++ link_text to next) }
{
    match to {
        Some(to) => {
            push_unfollowed(out, to)?;
            push_way(out, next)?;
            Ok(())
        }
        None => out.extend_from_slice(b"LINK without a cue number"),
    }
}

fn push_unfollowed(out: &mut Vec<u8>, to: u32) -> Result<(), AllocError>
    ensures { OnOk result (out.new.items ≡ out.old.items ++ unfollowed_text to) }
{
    out.extend_from_slice(b"LINK ")?;
    push_decimal(out, to)?;
    out.extend_from_slice(b" is not followed: GO goes ")?;
    Ok(())
}

fn push_way(out: &mut Vec<u8>, next: Option<u32>) -> Result<(), AllocError>
    ensures { OnOk result (out.new.items ≡ out.old.items ++ way_text next) }
{
    match next {
        Some(next) => {
            out.extend_from_slice(b"to ")?;
            push_decimal(out, next)
        }
        None => out.extend_from_slice(b"nowhere"),
    }
}

/// Appends the note on a line of a cue that has times and a comma for a point.
pub fn push_comma(
    out: &mut Vec<u8>,
    number: u32,
    statement: &Statement<'_>,
    line: &[u8],
) -> Result<(), AllocError>
    ensures { OnOk result (out.new.items
        ≡ out.old.items ++ comma_note_on number (times_on statement.now) line.now) }
{
    match times_on(statement) {
        Some(times) if has_decimal_comma(line) => push_comma_note(out, number, times, line),
        _ => Ok(()),
    }
}

fn times_on(statement: &Statement<'_>) -> Option<LineTimes>
    ensures { result ≡ times_on statement.now }
{
    match statement {
        Statement::SetsTime(_, CueTime::Up(rate) | CueTime::Down(rate)) => Some(LineTimes {
            time: rate.time,
            delay: Some(rate.delay),
        }),
        Statement::SetsTime(_, CueTime::Follow(time)) => Some(LineTimes {
            time: *time,
            delay: None,
        }),
        _ => None,
    }
}

fn push_comma_note(
    out: &mut Vec<u8>,
    number: u32,
    times: LineTimes,
    line: &[u8],
) -> Result<(), AllocError>
    ensures { OnOk result (out.new.items
        ≡ out.old.items ++ note_on number (comma_text line.now times)) }
{
    push_front(out, number)?;
    push_comma_text(out, times, line)?;
    out.push(b'\n')?;
    Ok(())
}

fn push_comma_text(out: &mut Vec<u8>, times: LineTimes, line: &[u8]) -> Result<(), AllocError>
    ensures { OnOk result (out.new.items ≡ out.old.items ++ comma_text line.now times) }
{
    push_comma_words(out, line)?;
    push_times(out, times)?;
    out.extend_from_slice(b"; write a point for a decimal")?;
    Ok(())
}

fn push_times(out: &mut Vec<u8>, times: LineTimes) -> Result<(), AllocError>
    ensures { OnOk result (out.new.items ≡ out.old.items ++ times_text times) }
{
    out.extend_from_slice(b"time ")?;
    push_decimal(out, times.time)?;
    push_delay(out, times.delay)?;
    Ok(())
}

fn push_delay(out: &mut Vec<u8>, delay: Option<u32>) -> Result<(), AllocError>
    ensures { OnOk result (out.new.items ≡ out.old.items ++ delay_text delay) }
{
    match delay {
        Some(delay) => {
            out.extend_from_slice(b", delay ")?;
            push_decimal(out, delay)
        }
        None => Ok(()),
    }
}

fn push_comma_words(out: &mut Vec<u8>, line: &[u8]) -> Result<(), AllocError>
    ensures { OnOk result (out.new.items ≡ out.old.items ++ display_text (take 200 line.now)
        ++ codes ": the comma parts two words: ") }
{
    push_display_text(out, first_bytes(line))?;
    out.extend_from_slice(b": the comma parts two words: ")?;
    Ok(())
}

// Whether a comma stands between two digits, before a comment.
fn has_decimal_comma(line: &[u8]) -> bool
    ensures { result ≡ has_decimal_comma line.now }
{
    for end in 2..line.len() {
        let (first, middle, last) = (line[end - 2], line[end - 1], line[end]);
        if first == b'!' {
            return false;
        }
        if is_decimal(first, middle, last) {
            return true;
        }
    }
    false
}

fn is_decimal(first: u8, middle: u8, last: u8) -> bool
    ensures { result ≡ is_decimal first middle last }
{
    first.is_ascii_digit() && middle == b',' && last.is_ascii_digit()
}

/// Appends the note on an UP or DOWN line of a cue that lasts more than an hour.
pub fn push_hour(
    out: &mut Vec<u8>,
    number: u32,
    statement: &Statement<'_>,
) -> Result<(), AllocError>
    ensures { OnOk result (out.new.items ≡ out.old.items ++ hour_by number statement.now) }
{
    match statement {
        Statement::SetsTime(cue, CueTime::Up(rate)) => push_long(out, number, *cue, b"UP ", *rate),
        Statement::SetsTime(cue, CueTime::Down(rate)) => {
            push_long(out, number, *cue, b"DOWN ", *rate)
        }
        _ => Ok(()),
    }
}

fn push_long(
    out: &mut Vec<u8>,
    number: u32,
    cue: u32,
    word: &[u8],
    rate: Rate,
) -> Result<(), AllocError>
    ensures { OnOk result (out.new.items ≡ out.old.items ++ hour_note_on number cue word.now rate) }
{
    if !is_long(rate) {
        return Ok(());
    }
    push_front(out, number)?;
    push_hour_text(out, cue, word, rate)?;
    out.push(b'\n')?;
    Ok(())
}

fn push_hour_text(out: &mut Vec<u8>, cue: u32, word: &[u8], rate: Rate) -> Result<(), AllocError>
    ensures { OnOk result (out.new.items ≡ out.old.items ++ hour_text cue word.now rate) }
{
    out.extend_from_slice(b"cue ")?;
    push_decimal(out, cue)?;
    out.extend_from_slice(b": ")?;
    out.extend_from_slice(word)?;
    push_rate(out, rate)?;
    out.extend_from_slice(b" lasts more than an hour")?;
    Ok(())
}

fn is_long(rate: Rate) -> bool
    ensures { result ≡ nat_lt 3600000 (rate.time + rate.delay) }
{
    HOUR < u64::from(rate.time) + u64::from(rate.delay)
}

/// Appends the front of a note on a line.
pub fn push_front(out: &mut Vec<u8>, number: u32) -> Result<(), AllocError>
    ensures { OnOk result (out.new.items
        ≡ out.old.items ++ codes "note: line " ++ decimal number ++ codes ": ") }
{
    out.extend_from_slice(b"note: line ")?;
    push_number(out, u64::from(number))?;
    out.extend_from_slice(b": ")
}

/// Appends a rate as UP and DOWN spell it, in seconds.
pub fn push_rate(out: &mut Vec<u8>, rate: Rate) -> Result<(), AllocError>
    ensures { OnOk result (out.new.items ≡ out.old.items ++ rate_text rate) }
{
    push_decimal(out, rate.time)?;
    if rate.delay == 0 {
        return Ok(());
    }
    out.push(b' ')?;
    push_decimal(out, rate.delay)
}
