ghost use Rattle.std.specs.Prelude.{◌≡◌, ◌≤◌, length};
ghost use Rattle.night_lines.specs.Records.{main_line, take_line};
ghost use Rattle.night_lines.specs.Led.{leading_line, led_help_line, led_reason, led_reminder_line};
ghost use Rattle.night_lines.specs.Led.{missing_line, over_line};

use crate::StartLine;
use crate::cid::cid_text;
use crate::clock::clock_text;
use crate::place::{Place, place_text};
use arrayvec::{ArrayString, ArrayVec};
use itoa::Buffer;

/// The night of a main, which another one follows.
#[derive(Clone, Copy, Debug)]
pub struct MainNight<'a> {
    /// The name of its record, as it is shown.
    pub file: &'a str,
    pub cid: [u8; 16],
    pub priority: u8,
    /// Where it is.
    pub place: Place,
}

/// The line of the main that a night follows, by a record whose name is shown in at most 256 bytes.
pub fn main_line(main: &MainNight<'_>) -> StartLine
    requires { length main.now.file.now ≤ 256 }
    ensures { result.bytes ≡ main_line main.now }
{
    let mut line = StartLine::new();
    line.push_str("follows: ");
    line.push_str(main.file);
    line.push_str(", of CID ");
    line.push_str(cid_text(main.cid).as_str());
    line.push_str(", priority ");
    line.push_str(Buffer::new().format(main.priority));
    line.push_str(", at ");
    line.push_str(place_text(main.place).as_str());
    line.push_str("\n");
    line
}

/// The line of how a following ends.
pub fn take_line() -> &'static str
    ensures { result.now ≡ take_line }
{
    "the main leads; take ends the following, and then go, back and end count here\n"
}

/// A line of how a following goes: a moment of 34 bytes has room.
pub type FollowingLine = ArrayString<120>;

/// The line of why a night goes on by itself from a moment on, in milliseconds.
pub fn leading_line(moment: u64, why: &str) -> FollowingLine
    requires { length why.now ≤ 40 }
    ensures { result.bytes ≡ leading_line moment why.now }
{
    let mut line = FollowingLine::new();
    line.push_str(clock_text(moment).as_str());
    line.push_str(" ");
    line.push_str(why);
    line.push_str(": goes on by itself\n");
    line
}

/// The line of a main that has ended the night at a moment, in milliseconds.
pub fn over_line(moment: u64) -> FollowingLine
    ensures { result.bytes ≡ over_line moment }
{
    let mut line = FollowingLine::new();
    line.push_str(clock_text(moment).as_str());
    line.push_str(" the main has ended the night\n");
    line
}

/// The line of a comment in a main's record, which says that lines are missing there.
pub fn missing_line(comment: &[u8]) -> ArrayVec<u8, 320>
    requires { length comment.now ≤ 201 }
    ensures { result.items ≡ missing_line comment.now }
{
    let mut line = ArrayVec::new();
    let _ = line.try_extend_from_slice(MISSING);
    let _ = line.try_extend_from_slice(comment);
    let _ = line.try_push(b'\n');
    line
}

const MISSING: &[u8] =
    b"the main's record: lines are missing, so its look and this one may differ: ";

/// The line of what can be typed while a night follows.
pub fn led_help_line() -> &'static str
    ensures { result.now ≡ led_help_line }
{
    "take: from now on this console leads; where: the current cue, the next one, and what masters \
        are at\n"
}

/// The line of an end of the input that was typed while a night follows.
pub fn led_reminder_line() -> &'static str
    ensures { result.now ≡ led_reminder_line }
{
    "the main leads; take ends the following\n"
}

/// Why a line that is typed while a night follows is not carried out.
pub fn led_reason() -> &'static str
    ensures { result.now ≡ led_reason }
{
    "the main leads; take ends the following"
}
