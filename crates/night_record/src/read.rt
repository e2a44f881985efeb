ghost use Rattle.std.specs.Prelude.{◌≡◌, ◌↔◌, IfSome, IsTrue, drop, take};
ghost use Rattle.std.specs.List.{position_or_len};
ghost use Rattle.uuid.specs.Text.{parsed};
ghost use Rattle.ascii_text.specs.Forms.{whole_of};
ghost use Rattle.night_record.specs.Head.{HasForm, IsHead, head_text, shape};
ghost use Rattle.night_record.specs.Reading.{before_comma, behind_comma, is_comma};
ghost use Rattle.night_record.specs.Reading.{head_with, head_at_places, show_of, started_of};

use crate::head::{HeadName, RecordHead};
use ascii_text::whole;
use hex::FromHex;
use memchr::memchr;
use uuid::Uuid;

// A moment's form: a digit stands for each zero.
const FORM: [u8; 24] = *b"0000-00-00T00:00:00.000Z";

// What the texts at the places of a head's parts spell.
#[derive(Drop)]
struct HeadParts {
    show: Option<[u8; 32]>,
    cid: Option<[u8; 16]>,
    priority: Option<u8>,
    base: Option<u16>,
    name: Option<HeadName>,
    started: Option<[u8; 24]>,
}

impl HeadParts {
    // The head, where each part is there.
    fn head(self) -> Option<RecordHead>
        ensures { result ≡ head_with self.show self.cid self.priority self.base self.name
            self.started }
    {
        Some(RecordHead {
            show: self.show?,
            cid: self.cid?,
            priority: self.priority?,
            base: self.base?,
            name: self.name?,
            started: self.started?,
        })
    }
}

impl RecordHead {
    /// The head that two lines without the last LF spell, or `None` where it spells none.
    pub fn read(line: &[u8]) -> Option<RecordHead>
        ensures text { IfSome result (λ head. head_text head ≡ line.now) }
        ensures form { IfSome result (λ head. HasForm head.started) }
        ensures back { (head : RecordHead) → IsHead head → head_text head ≡ line.now →
            result ≡ Some head }
    {
        let head = head_at_places(line)?;
        if is_spelled_by(&head, line) {
            Some(head)
        } else {
            None
        }
    }
}

fn is_spelled_by(head: &RecordHead, line: &[u8]) -> bool
    ensures { IsTrue result ↔ (HasForm head.now.started × (head_text head.now ≡ line.now)) }
{
    has_form(&head.started) && head.text().as_slice() == line
}

// What stands at the places of the parts, if the line spells a head: whether it does is not looked
// at.
fn head_at_places(line: &[u8]) -> Option<RecordHead>
    ensures { result ≡ head_at_places line.now }
{
    let (_, line) = split(line, 27);
    let (show, line) = split(line, 64);
    let (_, line) = split(line, 7);
    let (cid, line) = split(line, 36);
    let (_, line) = split(line, 11);
    let (priority, line) = at_comma(line);
    let (base, line) = at_comma(line);
    let (name, line) = split(line, line.len().saturating_sub(34));
    let (_, started) = split(line, 10);
    let parts = HeadParts {
        show: show_in(show),
        cid: cid_in(cid),
        priority: priority_in(priority),
        base: base_in(base),
        name: HeadName::new(name),
        started: started_in(started),
    };
    parts.head()
}

// The first `count` bytes, and those behind them.
fn split(text: &[u8], count: usize) -> (&[u8], &[u8])
    ensures front { result.0.now ≡ take count text.now }
    ensures behind { result.1.now ≡ drop count text.now }
{
    if count > text.len() {
        return (text, &[]);
    }
    text.split_at(count)
}

// What stands before the first comma, and behind it and a word of seven bytes.
fn at_comma(text: &[u8]) -> (&[u8], &[u8])
    ensures before { result.0.now ≡ before_comma text.now }
    ensures behind { result.1.now ≡ behind_comma text.now }
{
    let (before, rest) = split(text, comma(text));
    let (_, behind) = split(rest, 7);
    (before, behind)
}

// Where the first comma stands, or the length.
fn comma(text: &[u8]) -> usize
    ensures { result ≡ position_or_len is_comma text.now }
{
    memchr(b',', text).unwrap_or(text.len())
}

fn show_in(digits: &[u8]) -> Option<[u8; 32]>
    ensures { result ≡ show_of digits.now }
{
    match <[u8; 32] as FromHex>::from_hex(digits) {
        Ok(show) => Some(show),
        Err(_) => None,
    }
}

fn cid_in(text: &[u8]) -> Option<[u8; 16]>
    ensures { result ≡ parsed text.now }
{
    match Uuid::try_parse_ascii(text) {
        Ok(cid) => Some(cid.into_bytes()),
        Err(_) => None,
    }
}

fn priority_in(text: &[u8]) -> Option<u8>
    ensures { result ≡ whole_of 255 text.now }
{
    let priority = whole(text, 255)?;
    Some(priority as u8)
}

fn base_in(text: &[u8]) -> Option<u16>
    ensures { result ≡ whole_of 65535 text.now }
{
    let base = whole(text, 65_535)?;
    Some(base as u16)
}

fn started_in(text: &[u8]) -> Option<[u8; 24]>
    ensures { result ≡ started_of text.now }
{
    match <[u8; 24]>::try_from(text) {
        Ok(started) => Some(started),
        Err(_) => None,
    }
}

fn has_form(started: &[u8; 24]) -> bool
    ensures { IsTrue result ↔ HasForm started.now }
{
    for place in 0..24 {
        if shape(started[place]) != FORM[place] {
            return false;
        }
    }
    true
}

// A byte of a moment, each digit as a zero.
fn shape(byte: u8) -> u8
    ensures { result ≡ shape byte }
{
    if byte.is_ascii_digit() { b'0' } else { byte }
}
