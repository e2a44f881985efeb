ghost use Rattle.std.specs.Prelude.{◌≡◌, ◌++◌, ◌∷◌, [], IfOk, OnOk, Some};
ghost use Rattle.std.specs.FinMap as maps;
ghost use Rattle.show_core.specs.declared.cue.CueData.{CueData};
ghost use Rattle.cmd_cues.specs.Rows.{cue_row, cue_rows, dimmer_count};
ghost use Rattle.show_core.specs.Readers.{ordinal_of};
ghost use Rattle.cmd_cues.specs.Masters.{record_in};

use cmd_explain::cue_numbers;
use show_core::{Cue, Levels, Rate, Show};
use show_line::Record;
use std::alloc::{AllocError, Global};

/// A cue as it is played: its number in thousandths, its rates and its follow-on time in
/// milliseconds, and how many channels it lists.
#[derive(Clone, Copy)]
pub struct CueRow {
    pub number: u32,
    pub up: Rate,
    pub down: Rate,
    pub follow: Option<u32>,
    pub channels: u64,
}

/// The rows of all cues, ascending.
pub fn cue_rows(alloc: Global, show: &Show) -> Result<Vec<CueRow>, AllocError>
    ensures { IfOk result (λ rows. rows.items ≡ cue_rows show.now.cues) }
{
    let numbers = cue_numbers(alloc, show)?;
    let mut rows = Vec::new(alloc);
    for number in &numbers {
        push_cue_row(&mut rows, show, *number)?;
    }
    Ok(rows)
}

// Appends the row of a cue, where it is there.
fn push_cue_row(rows: &mut Vec<CueRow>, show: &Show, number: u32) -> Result<(), AllocError>
    ensures { OnOk result ((cue : CueData) → maps.get show.now.cues number ≡ Some cue
        → rows.new.items ≡ rows.old.items ++ cue_row (number, cue) ∷ []) }
{
    if let Some(cue) = show.cue(number) {
        rows.push(cue_row(number, &cue))?;
    }
    Ok(())
}

fn cue_row(number: u32, cue: &Cue<'_>) -> CueRow
    ensures { result ≡ cue_row (number, cue.now) }
{
    CueRow {
        number,
        up: cue.up(),
        down: cue.down(),
        follow: cue.follow(),
        channels: cue.pairs().len() as u64,
    }
}

/// How many channels are listed.
pub fn channel_count(levels: &Levels) -> u64
    ensures { result ≡ maps.len levels.now }
{
    levels.pairs().len() as u64
}

/// How many dimmers of the universe of an ordinal are patched.
pub fn dimmer_count(show: &Show, ordinal: u16) -> u64
    ensures { result ≡ dimmer_count show.now.patch ordinal }
{
    show.patch()
        .iter()
        .filter(|entry| ordinal_of(entry.0) == ordinal)
        .count() as u64
}

fn ordinal_of(dimmer: u16) -> u16
    ensures { result ≡ ordinal_of dimmer }
{
    dimmer.saturating_sub(1) / 512
}

/// Which records besides cues.
#[derive(Clone, Copy)]
pub enum Masters {
    Subs,
    Groups,
}

impl Masters {
    /// The record of a number.
    pub fn record(self, number: u16) -> Record
        ensures { result ≡ record_in self number }
    {
        match self {
            Masters::Subs => Record::Sub(number),
            Masters::Groups => Record::Group(number),
        }
    }
}
