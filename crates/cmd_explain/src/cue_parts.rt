ghost use Rattle.std.specs.Prelude.{◌≡◌, ◌∷◌, None, OnOk, IfOk, map, option_map, reverse};
ghost use Rattle.ascii_text.specs.Text.{words_of};
ghost use Rattle.show_line.specs.declared.statement.Record.TheVariants.{Cue};
ghost use Rattle.show_line.specs.declared.statement.Statement.TheVariants.{Levels};
ghost use Rattle.cmd_explain.specs.CueParts.{part_of_line, fall, headed_cue, change_last};
ghost use Rattle.cmd_explain.specs.CueParts.{new_part, no_times, opened_cue, part_by, part_name};
ghost use Rattle.cmd_explain.specs.CueParts.{part_of, with_part, parts_with_levels};
ghost use Rattle.cmd_explain.specs.CueParts.{parts_with_times, rise};
ghost use Rattle.cmd_explain.specs.CueParts.{same_rate, same_times, times_or, times_with};
ghost use Rattle.cmd_explain.specs.CueParts.{part_with_pairs, part_with_time};
ghost use Rattle.cmd_explain.specs.Headings.{operands};

use crate::heading::Heading;
use crate::line_words::{begins_with_word, operands};
use crate::openings::is_emptied;
use ascii_text::Line;
use show_core::{CueTime, Rate};
use show_line::{Pairs, Record, Statement, Table};
use std::alloc::{AllocError, Global};

// What channels take that no rate is given to.
const AT_ONCE: Rate = Rate { time: 0, delay: 0 };

/// An UP and a DOWN.
#[derive(Clone, Copy)]
pub struct Times {
    pub up: Option<Rate>,
    pub down: Option<Rate>,
}

/// The lines of a cue from a CUE or PART line on.
#[derive(Drop)]
pub struct Part {
    pub cue: u32,
    pub line: u32,
    // What stands behind PART.
    pub name: Option<Vec<u8>>,
    pub times: Times,
    pub pairs: Vec<(u16, u8)>,
}

impl Times {
    /// No time.
    pub fn none() -> Times
        ensures { result ≡ no_times }
    {
        Times {
            up: None,
            down: None,
        }
    }

    /// Sets one of them. A part has no other time.
    fn set(&mut self, time: CueTime)
        ensures { self.new ≡ times_with time self.old }
    {
        match time {
            CueTime::Up(rate) => self.up = Some(rate),
            CueTime::Down(rate) => self.down = Some(rate),
            _ => {}
        }
    }

    /// Takes from others what is missing here.
    pub fn or(self, other: Times) -> Times
        ensures { result ≡ times_or self other }
    {
        Times {
            up: self.up.or(other.up),
            down: self.down.or(other.down),
        }
    }

    /// Whether channels rise and fall alike by both.
    pub fn is_same(self, other: Times) -> bool
        ensures { result ≡ same_times self other }
    {
        is_same_rate(self.rise(), other.rise()) && is_same_rate(self.fall(), other.fall())
    }

    fn rise(self) -> Rate
        ensures { result ≡ rise self }
    {
        self.up.or(self.down).unwrap_or(AT_ONCE)
    }

    fn fall(self) -> Rate
        ensures { result ≡ fall self }
    {
        self.down.or(self.up).unwrap_or(AT_ONCE)
    }
}

fn is_same_rate(one: Rate, other: Rate) -> bool
    ensures { result ≡ same_rate one other }
{
    one.time == other.time && one.delay == other.delay
}

/// Adds the part that a line begins which this heads, if it begins one.
pub fn begin_part(
    alloc: Global,
    parts: &mut Vec<Part>,
    above: Heading,
    line: &Line<'_>,
    says: &Statement<'_>,
) -> Result<(), AllocError>
    ensures { OnOk result (reverse (map part_of parts.new.items)
        ≡ with_part (part_of_line above line.now.number says.now (words_of line.now.bytes.now))
        (reverse (map part_of parts.old.items))) }
{
    match opened_cue(says) {
        Some(cue) => add_part(alloc, parts, cue, line.number, None),
        None => begin_named(alloc, parts, headed_cue(above), line),
    }
}

// Adds the part that a PART line begins which this cue heads.
fn begin_named(
    alloc: Global,
    parts: &mut Vec<Part>,
    headed: Option<u32>,
    line: &Line<'_>,
) -> Result<(), AllocError>
    ensures { OnOk result (reverse (map part_of parts.new.items)
        ≡ with_part (part_by None headed line.now.number (words_of line.now.bytes.now))
        (reverse (map part_of parts.old.items))) }
{
    match headed {
        Some(cue) if begins_with_word(line.bytes, b"part") => {
            let name = name_in(alloc, line.bytes)?;
            add_part(alloc, parts, cue, line.number, Some(name))
        }
        _ => Ok(()),
    }
}

fn opened_cue(says: &Statement<'_>) -> Option<u32>
    ensures { result ≡ opened_cue says.now }
{
    match says {
        Statement::Opens(Record::Cue(cue)) => Some(*cue),
        _ => None,
    }
}

fn headed_cue(above: Heading) -> Option<u32>
    ensures { result ≡ headed_cue above }
{
    match above {
        Heading::Opened(Record::Cue(cue)) => Some(cue),
        _ => None,
    }
}

fn name_in(alloc: Global, line: &[u8]) -> Result<Vec<u8>, AllocError>
    ensures { IfOk result (λ name. name.items ≡ part_name (operands (words_of line.now))) }
{
    let mut name = Vec::new(alloc);
    match operands(line).next() {
        Some(word) => name.extend_from_slice(word)?,
        None => name.push(b'?')?,
    }
    Ok(name)
}

fn add_part(
    alloc: Global,
    parts: &mut Vec<Part>,
    cue: u32,
    line: u32,
    name: Option<Vec<u8>>,
) -> Result<(), AllocError>
    ensures { OnOk result (reverse (map part_of parts.new.items)
        ≡ new_part cue line (option_map (λ name. name.items) name)
        ∷ reverse (map part_of parts.old.items)) }
{
    parts.push(Part {
        cue,
        line,
        name,
        times: Times::none(),
        pairs: Vec::new(alloc),
    })?;
    Ok(())
}

/// Adds the levels of a record to the last part, if it is a cue.
pub fn add_pairs(parts: &mut Vec<Part>, which: Record, pairs: Pairs<'_>) -> Result<(), AllocError>
    ensures { OnOk result (reverse (map part_of parts.new.items)
        ≡ parts_with_levels (Levels which pairs.entry) (reverse (map part_of parts.old.items))) }
{
    match which {
        Record::Cue(_) => add_cue_pairs(parts, pairs),
        _ => Ok(()),
    }
}

fn add_cue_pairs(parts: &mut Vec<Part>, pairs: Pairs<'_>) -> Result<(), AllocError>
    ensures { OnOk result (reverse (map part_of parts.new.items)
        ≡ change_last (part_with_pairs pairs.entry) (reverse (map part_of parts.old.items))) }
{
    let Some(mut part) = parts.pop() else {
        return Ok(());
    };
    pairs.append_to(&mut part.pairs)?;
    parts.push(part)?;
    Ok(())
}

/// Takes what a line says of times, or that it empties the cues.
pub fn take_times(parts: &mut Vec<Part>, says: &Statement<'_>) -> Result<(), AllocError>
    ensures { OnOk result (reverse (map part_of parts.new.items)
        ≡ parts_with_times says.now (reverse (map part_of parts.old.items))) }
{
    match says {
        Statement::SetsTime(_, time) => set_time(parts, *time),
        Statement::Clears(what) => {
            if is_emptied(*what, Table::Cues) {
                parts.clear();
            }
            Ok(())
        }
        _ => Ok(()),
    }
}

fn set_time(parts: &mut Vec<Part>, time: CueTime) -> Result<(), AllocError>
    ensures { OnOk result (reverse (map part_of parts.new.items)
        ≡ change_last (part_with_time time) (reverse (map part_of parts.old.items))) }
{
    let Some(mut part) = parts.pop() else {
        return Ok(());
    };
    part.times.set(time);
    parts.push(part)?;
    Ok(())
}
