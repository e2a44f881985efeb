ghost use Rattle.std.specs.Prelude.{◌≡◌, ◌+◌, ◌<◌, ◌^◌, ℕ, List, ◌∷◌, length, take, reverse};
ghost use Rattle.std.specs.Prelude.{IfOk, OnOk, [], if◌then◌else◌};
ghost use Rattle.ascii_text.specs.Text.{lines_of};
ghost use Rattle.show_core.specs.Tables.{Tables};
ghost use Rattle.cmd_explain.specs.Headings.{is_unknown};
ghost use Rattle.cmd_explain.specs.NotesOf.{AreMore, AreNotesOf};

use crate::cue_parts::{Part, add_pairs, begin_part, take_times};
use crate::heading::{Heading, is_unknown};
use crate::line_notes::{push_comma, push_hour, push_link};
use crate::numbered_lines::NumberedLines;
use crate::openings::Openings;
use crate::patch_notes::PatchNotes;
use ascii_text::{Line, Lines};
use show_core::Show;
use show_line::{Keyword, Statement, Table, read_line};
use std::alloc::{AllocError, Global};

/// The notes on lines of a show text, by kinds, and what is needed for those on further lines.
#[derive(Drop)]
pub struct LineNotes {
    pub above: Heading,
    pub numbered: NumberedLines,
    pub parts: Vec<Part>,
    pub patches: PatchNotes,
    pub links: Vec<u8>,
    pub commas: Vec<u8>,
    pub cues: Openings,
    pub subs: Openings,
    pub groups: Openings,
    pub hours: Vec<u8>,
    // How many of the lines have an unknown keyword.
    pub unknown_lines: u32,
}

impl LineNotes {
    /// The notes on so many lines of a show text, which means this show.
    pub fn read(
        alloc: Global,
        text: &[u8],
        lines: u32,
        show: &Show,
    ) -> Result<LineNotes, AllocError>
        requires { length text.now < 2 ^ 32 }
        ensures { IfOk result (λ notes.
            AreNotesOf show.now (reverse (take lines (lines_of text.now))) notes) }
    {
        let mut notes = LineNotes::new(alloc);
        for line in Lines::new(text) {
            if line.number > lines {
                return Ok(notes);
            }
            notes.take_line(alloc, show, line)?;
        }
        Ok(notes)
    }

    fn new(alloc: Global) -> LineNotes
        ensures { (show : Tables) → AreNotesOf show [] result }
    {
        LineNotes {
            above: Heading::Nothing,
            numbered: NumberedLines::new(alloc),
            parts: Vec::new(alloc),
            patches: PatchNotes::new(alloc),
            links: Vec::new(alloc),
            commas: Vec::new(alloc),
            cues: Openings::new(alloc, Table::Cues),
            subs: Openings::new(alloc, Table::Subs),
            groups: Openings::new(alloc, Table::Groups),
            hours: Vec::new(alloc),
            unknown_lines: 0,
        }
    }

    fn take_line(&mut self, alloc: Global, show: &Show, line: Line<'_>) -> Result<(), AllocError>
        ensures { OnOk result ((lines : List (List ℕ)) → AreNotesOf show.now lines self.old
            → line.entry.number ≡ length lines + 1
            → AreNotesOf show.now (line.entry.bytes.now ∷ lines) self.new) }
    {
        let Some(reading) = read_line(self.above.owner(), line.bytes) else {
            return Ok(());
        };
        let unknown = unknown_in(self.above, reading.keyword);
        let below = self.above.below(reading.keyword, &reading.statement);
        begin_part(
            alloc,
            &mut self.parts,
            self.above,
            &line,
            &reading.statement,
        )?;
        self.note(show, &line, reading.keyword, reading.statement)?;
        self.above = below;
        self.unknown_lines = self.unknown_lines.saturating_add(unknown);
        Ok(())
    }

    // Adds the notes on a line of this keyword, which says this.
    fn note(
        &mut self,
        show: &Show,
        line: &Line<'_>,
        keyword: Keyword,
        says: Statement<'_>,
    ) -> Result<(), AllocError>
        ensures { OnOk result (AreMore show.now line.now.number keyword says.entry
            line.now.bytes.now self.old self.new) }
    {
        self.numbered.take(self.above, line, keyword, &says)?;
        push_link(&mut self.links, show, line.number, self.above, line.bytes)?;
        push_comma(&mut self.commas, line.number, &says, line.bytes)?;
        self.cues.take(line.number, &says)?;
        self.subs.take(line.number, &says)?;
        self.groups.take(line.number, &says)?;
        push_hour(&mut self.hours, line.number, &says)?;
        take_times(&mut self.parts, &says)?;
        match says {
            Statement::Levels(which, pairs) => add_pairs(&mut self.parts, which, pairs),
            says => self.patches.take(line.number, says),
        }
    }
}

// 1 for a line of an unknown keyword, and 0 for another.
fn unknown_in(above: Heading, keyword: Keyword) -> u32
    ensures { result ≡ if is_unknown above keyword then 1 else 0 }
{
    u32::from(is_unknown(above, keyword))
}
