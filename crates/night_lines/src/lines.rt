ghost use Rattle.std.specs.Prelude.{◌≡◌, [], ◌∷◌, ◌++◌, false, map, IfOk, OnOk};
ghost use Rattle.night_lines.specs.Lines.{line_text, lines_of};

use std::alloc::{AllocError, Global};

/// A line that is to be told, with its LF.
#[derive(Debug, Drop)]
pub struct Line {
    pub bytes: Vec<u8>,
}

/// Lines that are to be told, in their order. Where memory for one is refused, they are given up.
#[derive(Debug, Drop)]
pub struct Lines {
    alloc: Global,
    lines: Vec<Line>,
    // Memory was refused.
    is_full: bool,
}

impl Lines {
    /// No line yet.
    pub fn new(alloc: Global) -> Self
        ensures lines { lines_of result ≡ [] }
        ensures room { result.is_full ≡ false }
    {
        Lines {
            alloc,
            lines: Vec::new(alloc),
            is_full: false,
        }
    }

    /// Adds a line behind the others.
    pub fn push(&mut self, line: &[u8])
        ensures told { self.new.is_full ≡ false → self.old.is_full ≡ false }
        ensures line { self.new.is_full ≡ false
            → lines_of self.new ≡ lines_of self.old ++ line.now ∷ [] }
    {
        if push(self.alloc, &mut self.lines, line).is_err() {
            self.is_full = true;
        }
    }

    /// The lines, where there was memory for all of them.
    ///
    /// # Errors
    ///
    /// If there was not.
    pub(crate) fn whole(self) -> Result<Lines, AllocError>
        ensures ok { IfOk result (λ lines. (lines ≡ self) × (self.is_full ≡ false)) }
    {
        if self.is_full {
            return Err(AllocError);
        }
        Ok(self)
    }

    /// The lines, the first first.
    pub fn as_slice(&self) -> &[Line]
        ensures { map line_text result.now ≡ lines_of self.now }
    {
        self.lines.as_slice()
    }
}

#[tactic(auto, using(std::proofs::lemmas::List::map_push))]
fn push(alloc: Global, lines: &mut Vec<Line>, line: &[u8]) -> Result<(), AllocError>
    ensures { OnOk result
        (map line_text lines.new.items ≡ map line_text lines.old.items ++ line.now ∷ []) }
{
    let bytes = Vec::from_slice(alloc, line)?;
    lines.push(Line { bytes })?;
    Ok(())
}
