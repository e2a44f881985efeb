use crate::fault::LineFault;
use crate::pairs::Pairs;
use crate::triples::Triples;
use show_core::CueTime;

/// What a CUE, GROUP or SUB line opens: a cue by its number in thousandths, a group or a submaster.
#[derive(Clone, Copy, Debug, PartialEq, Eq)]
pub enum Record {
    Cue(u32),
    Group(u16),
    Sub(u16),
}

/// One of the four tables of a show.
#[derive(Clone, Copy, Debug, PartialEq, Eq)]
pub enum Table {
    Cues,
    Groups,
    Subs,
    Patch,
}

/// What a CLEAR line empties.
#[derive(Clone, Copy, Debug, PartialEq, Eq)]
pub enum Cleared {
    All,
    Only(Table),
}

/// What a line says.
#[derive(Debug, Drop)]
pub enum Statement<'a> {
    /// It opens a record, or continues it.
    Opens(Record),
    /// It lists levels of a record: the pairs of a CHAN line.
    Levels(Record, Pairs<'a>),
    /// It sets a time of a cue, which is named by its number in thousandths: a rate, or the
    /// follow-on time.
    SetsTime(u32, CueTime),
    /// It patches dimmers: the triples of a PATCH line.
    Patches(Triples<'a>),
    /// It empties tables.
    Clears(Cleared),
    /// It has no effect.
    Quiet,
    /// It has no effect, and counts as skipped.
    Skipped,
    /// It has a fault: the lowest of its words.
    Faulty(LineFault),
}

impl<'a> Statement<'a> {
    ghost use Rattle.std.specs.Prelude.{◌≡◌};
    ghost use Rattle.show_line.specs.Said.{record_opened};

    /// The record that it opens or continues.
    pub fn opens(&self) -> Option<Record>
        ensures { result ≡ record_opened self.now }
    {
        match self {
            Statement::Opens(record) => Some(*record),
            _ => None,
        }
    }
}
