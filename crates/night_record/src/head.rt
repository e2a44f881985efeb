ghost use Rattle.std.specs.Prelude.{◌≡◌, ◌≤◌, ◌+◌, ◌++◌, length, codes};
ghost use Rattle.hex.specs.Hex.{encode_lower};
ghost use Rattle.uuid.specs.Text.{hyphenated_text, lower};
ghost use Rattle.night_record.specs.Head.{head_text, name_of};

use arrayvec::ArrayVec;
use itoa::Buffer;
use std::marker::Model;
use uuid::Uuid;

/// The lines of a head: there is room for a priority of three digits, a base of five, a name of 63
/// bytes, and two LF.
pub type HeadLines = ArrayVec<u8, 265>;

/// The name of a source, as a head has it: at most 63 bytes. Contracts see it as these.
#[derive(Debug, Drop)]
pub struct HeadName {
    bytes: ArrayVec<u8, 63>,
}

impl Model for HeadName {
    ghost use Rattle.std.specs.Prelude.{ℕ, List};

    ghost Value = { List ℕ };

    ghost view = { λ name. name.bytes.items };
}

impl HeadName {
    /// The name of these bytes, or `None` where there are more than 63.
    pub fn new(name: &[u8]) -> Option<HeadName>
        ensures { result ≡ name_of name.now }
    {
        if name.len() > 63 {
            return None;
        }
        let mut bytes = ArrayVec::new();
        let _ = bytes.try_extend_from_slice(name);
        Some(HeadName { bytes })
    }

    /// The bytes of the name.
    pub fn as_bytes(&self) -> &[u8]
        ensures bytes { result.now ≡ self.now }
        ensures room { length result.now ≤ 63 }
    {
        self.bytes.as_slice()
    }
}

/// What the head of a record says: of which show the night is, and who sends it.
#[derive(Debug, Drop)]
pub struct RecordHead {
    /// The SHA-256 of the bytes of the show file.
    pub show: [u8; 32],

    /// The CID of who sends: the UUID's 16 bytes in order.
    pub cid: [u8; 16],

    /// The priority of the packets.
    pub priority: u8,

    /// The number of the first universe.
    pub base: u16,

    /// The name of the source.
    pub name: HeadName,

    /// The moment when the record was begun, in UTC, as `2026-11-26T19:30:00.250Z`.
    pub started: [u8; 24],
}

impl RecordHead {
    /// The lines of this head, each with its LF.
    pub fn lines(&self) -> HeadLines
        ensures { result.items ≡ head_text self.now ++ codes "\n" }
    {
        let mut line = self.text();
        push(&mut line, b"\n");
        line
    }

    // The lines without the last LF.
    pub(crate) fn text(&self) -> HeadLines
        ensures text { result.items ≡ head_text self.now }
        ensures room { length result.items ≤ 264 }
    {
        let mut line = HeadLines::new();
        push(&mut line, b"! cueplayer record 1: show ");
        push(&mut line, &digits(&self.show));
        push(&mut line, b"\n! cid ");
        push_cid(&mut line, self.cid);
        push(&mut line, b", priority ");
        push(&mut line, Buffer::new().format(self.priority).as_bytes());
        push(&mut line, b", base ");
        push(&mut line, Buffer::new().format(self.base).as_bytes());
        push(&mut line, b", name ");
        push(&mut line, self.name.as_bytes());
        push(&mut line, b", started ");
        push(&mut line, &self.started);
        line
    }
}

fn digits(show: &[u8; 32]) -> [u8; 64]
    ensures { result ≡ encode_lower show.now }
{
    let mut digits = [0; 64];
    let _ = hex::encode_to_slice(show, &mut digits);
    digits
}

fn push_cid(line: &mut HeadLines, cid: [u8; 16])
    requires { length line.old.items ≤ 229 }
    ensures text { line.new.items ≡ line.old.items ++ hyphenated_text lower cid }
    ensures room { length line.new.items ≡ length line.old.items + 36 }
{
    let mut buffer = Uuid::encode_buffer();
    let text = Uuid::from_bytes(cid).hyphenated().encode_lower(&mut buffer);
    push(line, text.as_bytes());
}

fn push(line: &mut HeadLines, text: &[u8])
    requires { length line.old.items + length text.now ≤ 265 }
    ensures text { line.new.items ≡ line.old.items ++ text.now }
    ensures room { length line.new.items ≡ length line.old.items + length text.now }
{
    let _ = line.try_extend_from_slice(text);
}
