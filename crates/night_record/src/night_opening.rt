ghost use Rattle.std.specs.Prelude.{◌≡◌, None};
ghost use Rattle.night_record.specs.NightOpening.{IsNightOpening, goes_on, has_cut_line};
ghost use Rattle.night_record.specs.NightOpening.{lines_of_night, no_lines, opening_behind};

use crate::head::{HeadLines, RecordHead};
use crate::opening::{RecordOpening, TakenUp};
use crate::unfit::Unfit;

/// What of a record a night goes on behind, and how it begins one.
#[derive(Debug, Drop)]
pub struct NightOpening {
    /// The first lines of a record that begins.
    pub head: Option<HeadLines>,
    /// The lines of a night that goes on.
    pub lines: TakenUp,
}

impl NightOpening {
    /// Without a record.
    pub fn none() -> NightOpening
        ensures { result ≡ record { head = None; lines = no_lines } }
    {
        NightOpening::behind(0)
    }

    /// Behind so many bytes of a record, which has lines of a night.
    pub fn behind(length: usize) -> NightOpening
        ensures { result ≡ record { head = None; lines = record { from = 0; to = length } } }
    {
        NightOpening {
            head: None,
            lines: TakenUp {
                from: 0,
                to: length,
            },
        }
    }

    /// Behind the bytes that were given in lines of a record which another process played, by what
    /// failed meanwhile, and whether the record is still there.
    ///
    /// # Errors
    ///
    /// What failed; or that the record is gone.
    pub fn behind_played<F: Drop>(
        given: u64,
        failure: Option<F>,
        is_there: bool,
        gone: F,
    ) -> Result<NightOpening, F>
        ensures { result ≡ opening_behind given failure is_there gone }
    {
        match failure {
            Some(fault) => Err(fault),
            None if is_there => Ok(NightOpening::behind(given as usize)),
            None => Err(gone),
        }
    }

    /// How the night of this head begins or goes on by the text of its record.
    ///
    /// # Errors
    ///
    /// Where that is of another night, or of none.
    pub fn of(night: &RecordHead, text: &[u8]) -> Result<NightOpening, Unfit>
        ensures { IsNightOpening night.now text.now result }
    {
        match RecordOpening::of(night, text) {
            Ok(RecordOpening::Begins) => Ok(NightOpening {
                head: Some(night.lines()),
                lines: TakenUp { from: 0, to: 0 },
            }),
            Ok(RecordOpening::GoesOn(lines)) => Ok(NightOpening { head: None, lines }),
            Err(unfit) => Err(unfit),
        }
    }
}

impl TakenUp {
    /// The lines of the night, of the text of its record.
    pub fn of_text<'t>(&self, text: &'t [u8]) -> &'t [u8]
        ensures { result.now ≡ lines_of_night self.now text.now }
    {
        if self.from <= self.to && self.to <= text.len() {
            &text[self.from..self.to]
        } else {
            &[]
        }
    }

    /// Whether a night goes on: there are lines of it.
    pub fn goes_on(&self) -> bool
        ensures { result ≡ goes_on self.now }
    {
        self.from < self.to
    }

    /// Whether a line that was cut stands behind them, in a record of so many bytes.
    pub fn has_cut_line(&self, length: u64) -> bool
        ensures { result ≡ has_cut_line self.now length }
    {
        length > self.to as u64
    }
}
