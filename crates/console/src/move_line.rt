ghost use Rattle.std.specs.Prelude.{◌≡◌, ◌≤◌, ◌<◌, ◌+◌, ◌++◌, decimal, length};
ghost use Rattle.console.specs.CueLine.{cue_line, cue_text, places_text};

use arrayvec::ArrayString;
use itoa::Buffer;

/// A cue number: seven digits, a point and three more have room.
pub type CueNumber = ArrayString<12>;

/// The line of a move: a number of 20 digits, ` cue `, a cue number and LF have room.
pub type CueLine = ArrayString<40>;

/// The line of a move at a moment, in milliseconds, to a cue, in thousandths.
pub fn cue_line(moment: u64, cue: u32) -> CueLine
    ensures { result.bytes ≡ cue_line moment cue }
{
    let mut line = CueLine::new();
    line.push_str(Buffer::new().format(moment));
    line.push_str(" cue ");
    line.push_str(cue_number(cue).as_str());
    line.push_str("\n");
    line
}

/// A cue number, from thousandths.
pub fn cue_number(cue: u32) -> CueNumber
    ensures text { result.bytes ≡ cue_text cue }
    ensures room { length result.bytes ≤ 11 }
{
    let mut text = CueNumber::new();
    text.push_str(Buffer::new().format(cue / 1000));
    push_places(&mut text, cue % 1000);
    text
}

fn push_places(text: &mut CueNumber, thousandths: u32)
    requires in_range { thousandths < 1000 }
    requires room { length text.old.bytes ≤ 7 }
    ensures text { text.new.bytes ≡ text.old.bytes ++ places_text thousandths }
    ensures room { length text.new.bytes ≤ length text.old.bytes + 4 }
{
    if thousandths == 0 {
        return;
    }
    text.push_str(".");
    push_digit(text, thousandths / 100);
    if thousandths % 100 == 0 {
        return;
    }
    push_digit(text, thousandths / 10 % 10);
    if thousandths % 10 != 0 {
        push_digit(text, thousandths % 10);
    }
}

fn push_digit(text: &mut CueNumber, digit: u32)
    requires digit { digit < 10 }
    requires room { length text.old.bytes < 12 }
    ensures text { text.new.bytes ≡ text.old.bytes ++ decimal digit }
    ensures room { length text.new.bytes ≤ length text.old.bytes + 1 }
{
    text.push_str(Buffer::new().format(digit));
}
