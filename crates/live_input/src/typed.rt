ghost use Rattle.std.specs.Prelude.{◌≡◌, ◌≤◌, [], ◌∷◌, ◌++◌, length, take};
ghost use Rattle.live_input.specs.Typed as typed;

use arrayvec::ArrayVec;
use ascii_text::Words;

/// A line: one byte more than it may have, so that a longer one is seen.
pub type Line = ArrayVec<u8, 201>;

// The bytes that came, and what was taken of them for the next line.
#[derive(Debug, Drop)]
pub struct TypedLines {
    pub came: ArrayVec<u8, 4096>,
    // How many of them were taken.
    pub taken: usize,
    pub line: Line,
    ghost in_range: { taken ≤ length came.items },
}

impl TypedLines {
    ghost use Rattle.std.specs.Prelude.{◌≡◌, ◌≤◌, ◌<◌, ◌+◌, [], length, option_map, IfNone};
    ghost use Rattle.live_input.specs.Stands.{TakesLine};
    ghost use Rattle.live_input.specs.TypedView.{typed_kept};

    pub fn new() -> Self
        ensures { typed_kept result ≡ record { unread = []; line = [] } }
    {
        TypedLines {
            came: ArrayVec::new(),
            taken: 0,
            line: ArrayVec::new(),
        }
    }

    // More bytes came.
    pub fn extend(&mut self, bytes: &[u8])
        requires taken { (typed_kept self.old).unread ≡ [] }
        requires short { length bytes.now ≤ 4096 }
        ensures { typed_kept self.new ≡ record (typed_kept self.old) { unread = bytes.now } }
    {
        self.came.clear();
        self.taken = 0;
        self.came.try_extend_from_slice(bytes).unwrap();
    }

    // Takes bytes up to the end of the next line that says something. Where there is none, all
    // bytes that came were taken.
    pub fn next_line(&mut self) -> Option<Line>
        ensures none { IfNone result ((typed_kept self.new).unread ≡ []) }
        ensures takes { TakesLine (typed_kept self.old) (typed_kept self.new)
            (option_map (λ line. line.items) result) }
    {
        while self.taken < self.came.len() {
            if let Some(line) = self.take_byte() {
                return Some(line);
            }
        }
        None
    }

    // Takes a byte, and answers the line that it ends, where that says something.
    fn take_byte(&mut self) -> Option<Line>
        requires { self.old.taken < length self.old.came.items }
        ensures takes { TakesLine (typed_kept self.old) (typed_kept self.new)
            (option_map (λ line. line.items) result) }
        ensures same { self.new.came ≡ self.old.came }
        ensures one_more { self.new.taken ≡ self.old.taken + 1 }
    {
        let byte = self.came.as_slice()[self.taken];
        self.taken += 1;
        if byte != b'\n' {
            look_at(&mut self.line, byte);
            return None;
        }
        let line = self.line.take();
        if says_nothing(line.as_slice()) {
            None
        } else {
            Some(line)
        }
    }
}

// A byte more of a line, as far as it is looked at.
fn look_at(line: &mut Line, byte: u8)
    ensures { line.new.items ≡ take 201 (line.old.items ++ byte ∷ []) }
{
    if !line.is_full() {
        line.push(byte);
    }
}

// Whether a line of at most 200 bytes has no words.
fn says_nothing(line: &[u8]) -> bool
    ensures { result ≡ typed.says_nothing line.now }
{
    line.len() <= 200 && Words::new(line).next().is_none()
}
