ghost use Rattle.std.specs.Prelude.{◌≡◌, ◌∷◌, ◌++◌, [], IfNone, IfOk, IfSome, OnErr, take};
ghost use Rattle.byte_reading.specs.LinesLeft.{bytes_left, source};
ghost use Rattle.byte_reading.specs.ShortLines.{GivesByte, GivesLine, GivesNone, shown_byte};

use crate::ahead::Ahead;
use crate::block_source::BlockSource;
use arrayvec::ArrayString;
use std::io::ErrorKind;

/// A line of a text: at most its first 160 bytes, with a blank for each that is no printable ASCII.
pub type ShortLine = ArrayString<160>;

/// The lines of a text that is read block by block, each without its LF. What stands behind the
/// last LF is one more line, if it is not empty.
#[derive(Drop)]
pub struct ShortLines<B> {
    blocks: B,
    ahead: Ahead,
}

impl<B: BlockSource> ShortLines<B> {
    /// The lines of what the source has left.
    pub fn new(blocks: B) -> Self
        ensures source { source result ≡ blocks }
        ensures left { bytes_left B.left result ≡ B.left blocks }
    {
        ShortLines {
            blocks,
            ahead: Ahead::new(),
        }
    }

    /// The next line; `None` where there is none, or where a read fails. What was read of a line
    /// before a read failed is lost.
    pub fn next_line(&mut self) -> Option<ShortLine>
        ensures some { IfSome result (λ line. GivesLine (bytes_left B.left self.old)
            (bytes_left B.left self.new) line.bytes) }
        ensures none { IfNone result (GivesNone (bytes_left B.left self.old)
            (bytes_left B.left self.new) (B.may_fail (source self.old))) }
        ensures same { B.may_fail (source self.new) → B.may_fail (source self.old) }
    {
        let mut line = ShortLine::new();
        for _ in 0..u64::MAX {
            let Ok(next) = self.next_byte() else {
                return None;
            };
            let Some(byte) = next else {
                return if line.is_empty() { None } else { Some(line) };
            };
            if byte == b'\n' {
                return Some(line);
            }
            push_shown(&mut line, byte);
        }
        None
    }

    fn next_byte(&mut self) -> Result<Option<u8>, ErrorKind>
        ensures byte { IfOk result (λ byte. GivesByte (bytes_left B.left self.old)
            (bytes_left B.left self.new) byte) }
        ensures fault { OnErr result (B.may_fail (source self.old)) }
        ensures same { B.may_fail (source self.new) → B.may_fail (source self.old) }
    {
        self.ahead.fill(&mut self.blocks)?;
        Ok(self.ahead.take_byte())
    }
}

// One byte more of a line, as far as there is room.
fn push_shown(line: &mut ShortLine, byte: u8)
    ensures { line.new.bytes ≡ take 160 (line.old.bytes ++ shown_byte byte ∷ []) }
{
    if !line.is_full() {
        line.push(char::from(shown_byte(byte)));
    }
}

fn shown_byte(byte: u8) -> u8
    ensures { result ≡ shown_byte byte }
{
    match byte {
        b' '..=b'~' => byte,
        _ => b' ',
    }
}
