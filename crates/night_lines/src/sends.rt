ghost use Rattle.std.specs.Prelude.{◌≡◌, ◌≤◌, flat_map, length, option_map};
ghost use Rattle.night_lines.specs.Sends as spec;

use crate::StartLine;
use crate::cid::cid_text;
use crate::target_lines::targets_text;
use arrayvec::{ArrayString, ArrayVec};
use itoa::Buffer;
use targets::Targets;

/// What a night sends, and how.
#[derive(Clone, Copy)]
pub struct Transmission<'a> {
    /// The number of the first universe.
    pub base: u16,
    /// The universes in which a dimmer is patched, by their ordinals.
    pub ordinals: &'a ArrayVec<u16, 16>,
    pub targets: &'a Targets,
    pub priority: u8,
    pub cid: [u8; 16],
    /// The name of who sends.
    pub name: &'a str,
}

/// The line of what a night sends; `None` where its name has more than 63 bytes, which no source
/// has.
pub fn sends_line(sends: &Transmission<'_>) -> Option<StartLine>
    ensures { option_map spec.sends_seen result ≡ spec.sends_line sends.now }
{
    if sends.name.len() > 63 {
        return None;
    }
    Some(whole_line(sends))
}

fn whole_line(sends: &Transmission<'_>) -> StartLine
    requires { length sends.now.name.now ≤ 63 }
    ensures { result.bytes ≡ spec.whole_line sends.now }
{
    let mut line = StartLine::new();
    line.push_str("sends: ");
    line.push_str(universe_word(sends.ordinals.as_slice()));
    line.push_str(universe_numbers(sends.base, sends.ordinals.as_slice()).as_str());
    line.push_str(targets_text(sends.targets).as_str());
    line.push_str(", priority ");
    line.push_str(Buffer::new().format(sends.priority));
    line.push_str(", CID ");
    line.push_str(cid_text(sends.cid).as_str());
    line.push_str(", name ");
    line.push_str(sends.name);
    line.push_str("\n");
    line
}

fn universe_word(ordinals: &[u16]) -> &'static str
    ensures text { result.now ≡ spec.universe_word ordinals.now }
    ensures room { length result.now ≤ 40 }
{
    match ordinals {
        [] => "no universe, since no dimmer is patched,",
        [_] => "universe",
        _ => "universes",
    }
}

fn universe_numbers(base: u16, ordinals: &[u16]) -> ArrayString<176>
    requires { length ordinals.now ≤ 16 }
    ensures { result.bytes ≡ flat_map (spec.number_text base) ordinals.now }
{
    let mut text = ArrayString::new();
    for ordinal in ordinals {
        text.push_str(number_text(base, *ordinal).as_str());
    }
    text
}

fn number_text(base: u16, ordinal: u16) -> ArrayString<11>
    ensures { result.bytes ≡ spec.number_text base ordinal }
{
    let mut text = ArrayString::new();
    text.push_str(" ");
    text.push_str(Buffer::new().format(u32::from(base) + u32::from(ordinal)));
    text
}
