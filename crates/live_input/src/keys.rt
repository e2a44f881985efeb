ghost use Rattle.std.specs.Prelude.{◌≡◌, ◌≤◌, length};
ghost use Rattle.live_input.specs.Keys as keys;

use crate::typed::Line;

// What begins each sequence.
const ESCAPE: u8 = 27;

/// What a byte of a line may belong to.
#[derive(Clone, Copy, Debug, PartialEq, Eq)]
pub enum Part {
    /// The text.
    Text,
    /// A key, behind ESC.
    Escape,
    /// A key, behind `ESC [`.
    Sequence,
    /// A key, as its last byte.
    Last,
}

// Whether a key that sends a sequence was pressed for this line.
pub fn has_keys(line: &[u8]) -> bool
    ensures { result ≡ keys.has_keys line.now }
{
    line.contains(&ESCAPE)
}

// A line without what arrow and function keys sent.
pub fn without_keys(line: &[u8]) -> Line
    requires { length line.now ≤ 201 }
    ensures { result.items ≡ keys.without_keys line.now }
{
    let mut text = Line::new();
    let mut part = Part::Text;
    for byte in line {
        if part == Part::Text && *byte != ESCAPE {
            text.push(*byte);
        }
        part = part.after(*byte);
    }
    text
}

impl Part {
    // What the next byte belongs to.
    fn after(self, byte: u8) -> Part
        ensures { result ≡ keys.part_after self byte }
    {
        match self {
            Part::Text => in_text(byte),
            Part::Escape => behind_escape(byte),
            Part::Sequence => in_sequence(byte),
            Part::Last => Part::Text,
        }
    }
}

fn in_text(byte: u8) -> Part
    ensures { result ≡ keys.in_text byte }
{
    if byte == ESCAPE {
        Part::Escape
    } else {
        Part::Text
    }
}

fn behind_escape(byte: u8) -> Part
    ensures { result ≡ keys.behind_escape byte }
{
    match byte {
        ESCAPE => Part::Escape,
        b'[' => Part::Sequence,
        b'O' => Part::Last,
        _ => Part::Text,
    }
}

fn in_sequence(byte: u8) -> Part
    ensures { result ≡ keys.in_sequence byte }
{
    match byte {
        b'[' => Part::Last,
        b'@'..=b'~' => Part::Text,
        _ => Part::Sequence,
    }
}
