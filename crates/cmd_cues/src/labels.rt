ghost use Rattle.std.specs.Prelude.{◌≡◌, ◌<◌, ◌^◌, ◌++◌, ℕ, List, ◌∷◌, length, reverse, take};
ghost use Rattle.std.specs.Prelude.{IfOk, OnOk, if◌then◌else◌, option_map, option_to_list};
ghost use Rattle.ascii_text.specs.Text.{lines_of};
ghost use Rattle.show_line.specs.Keywords.{may_own};
ghost use Rattle.show_line.specs.Said.{desk_limits, record_opened};
ghost use Rattle.show_reader.specs.Text.{owner_below};
ghost use Rattle.cmd_explain.specs.Skipped.{words_in};
ghost use Rattle.cmd_cues.specs.declared.label_line.LabelKind.TheVariants.{Text, Comment};
ghost use Rattle.cmd_cues.specs.LabelLines.{AreOf, label_by, last_label_by};

use crate::label_line::{Candidates, LabelLine, label_line};
use ascii_text::Lines;
use show_line::{Reading, Record, read_line};
use std::alloc::{AllocError, Global};

// The record that owns the lines below a line that was read, which this record owns.
fn next_owner(owner: Option<Record>, reading: &Reading<'_>) -> Option<Record>
    ensures { result ≡ (if may_own reading.now.keyword then record_opened reading.now.statement
        else owner) }
{
    if reading.keyword.may_own() {
        reading.statement.opens()
    } else {
        owner
    }
}

/// The labels of the records of a show text.
#[derive(Drop)]
pub struct Labels<'a> {
    // What lines say of labels, in their order.
    lines: Vec<LabelLine<'a>>,
}

impl<'a> Labels<'a> {
    /// The labels that so many lines of a show text give.
    pub fn read(alloc: Global, text: &'a [u8], lines: u32) -> Result<Labels<'a>, AllocError>
        requires { length text.now < 2 ^ 32 }
        ensures { IfOk result (λ labels. AreOf (reverse (take lines (lines_of text.now)))
            labels.lines.items) }
    {
        let mut labels = Labels {
            lines: Vec::new(alloc),
        };
        let mut owner = None;
        for line in Lines::new(text) {
            if line.number > lines {
                return Ok(labels);
            }
            owner = labels.take_line(owner, line.bytes)?;
        }
        Ok(labels)
    }

    // Takes what a line says of labels, and answers the record that owns the next one.
    fn take_line(
        &mut self,
        owner: Option<Record>,
        line: &'a [u8],
    ) -> Result<Option<Record>, AllocError>
        ensures labels { OnOk result ((above : List (List ℕ))
            → owner ≡ owner_below desk_limits (words_in above) → AreOf above self.old.lines.items
            → AreOf (line.now ∷ above) self.new.lines.items) }
        ensures owner { IfOk result (λ below. (above : List (List ℕ))
            → owner ≡ owner_below desk_limits (words_in above)
            → below ≡ owner_below desk_limits (words_in (line.now ∷ above))) }
    {
        let Some(reading) = read_line(owner, line) else {
            return Ok(owner);
        };
        self.push(label_line(owner, &reading.statement, line))?;
        Ok(next_owner(owner, &reading))
    }

    fn push(&mut self, said: Option<LabelLine<'a>>) -> Result<(), AllocError>
        ensures { OnOk result
            (self.new.lines.items ≡ self.old.lines.items ++ option_to_list said.entry) }
    {
        if let Some(line) = said {
            self.lines.push(line)?;
        }
        Ok(())
    }

    /// The label of a record, empty where it has none.
    pub fn label(&self, of: Record) -> &'a [u8]
        ensures { result.now ≡ label_by self.now.lines.items of }
    {
        let candidates = self.candidates(of);
        candidates.text.or(candidates.comment).unwrap_or(&[])
    }

    fn candidates(&self, of: Record) -> Candidates<'a>
        ensures text { option_map (λ b. b.now) result.text
            ≡ last_label_by of Text self.now.lines.items }
        ensures comment { option_map (λ b. b.now) result.comment
            ≡ last_label_by of Comment self.now.lines.items }
    {
        let mut candidates = Candidates {
            text: None,
            comment: None,
        };
        for line in &self.lines {
            line.apply(of, &mut candidates);
        }
        candidates
    }
}
