ghost use Rattle.std.specs.Prelude.{◌≡◌, ◌≤◌, ◌+◌, ◌∷◌, [], length, false, min, take, IfSome};
ghost use Rattle.std.specs.Prelude.{IsNone};

use super::kept::copy;
use night_record::LineFront;

/// Lines that are written to a record over memory, some before each look.
#[derive(Debug, Drop)]
pub struct StandingLines<'a> {
    /// Those that were not given, with those that are still to be written.
    pub lines: &'a [LineFront],
    /// So many of these stood there at the latest look.
    pub standing: usize,
    /// So many more are written before each look.
    pub step: usize,
    ghost within: { standing ≤ length lines.now },
}

impl<'a> StandingLines<'a> {
    /// None of these lines stands there yet.
    pub fn new(lines: &'a [LineFront], step: usize) -> Self
        ensures lines { result.lines.now ≡ lines.now }
        ensures begins { (result.standing ≡ 0) × (result.step ≡ step) }
    {
        StandingLines {
            lines,
            standing: 0,
            step,
        }
    }

    /// The next line, where one stood there.
    pub fn next_line(&mut self) -> Option<LineFront>
        ensures line { IfSome result (λ line.
            take self.old.standing self.old.lines.now
            ≡ line ∷ take self.new.standing self.new.lines.now) }
        ensures none { IsNone result → (self.new ≡ self.old)
            × (take self.new.standing self.new.lines.now ≡ []) }
    {
        if self.standing == 0 {
            return None;
        }
        let line = copy(&self.lines[0]);
        self.lines = &self.lines[1..];
        self.standing -= 1;
        Some(line)
    }

    /// Looks, behind a step that is written: whether a line stands there.
    pub fn look(&mut self) -> bool
        ensures more { self.new.standing
            ≡ min (self.old.standing + self.old.step) (length self.old.lines.now) }
        ensures same { (self.new.lines.now ≡ self.old.lines.now) × (self.new.step ≡ self.old.step) }
        ensures none { result ≡ false → take self.new.standing self.new.lines.now ≡ [] }
    {
        self.standing = self
            .standing
            .saturating_add(self.step)
            .min(self.lines.len());
        self.standing > 0
    }

    /// Looks, behind all that is written: whether a line stands there.
    pub fn look_at_all(&mut self) -> bool
        ensures all { self.new.standing ≡ length self.old.lines.now }
        ensures same { (self.new.lines.now ≡ self.old.lines.now) × (self.new.step ≡ self.old.step) }
        ensures none { result ≡ false → take self.new.standing self.new.lines.now ≡ [] }
    {
        self.standing = self.lines.len();
        self.standing > 0
    }
}
