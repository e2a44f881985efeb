ghost use Rattle.std.specs.Prelude.{◌≡◌, ◌≤◌, ◌<◌, ◌+◌, ◌++◌, ◌∷◌, [], length, codes, decimal};
ghost use Rattle.sacn_receiver.specs.Replies.{end_line, slot_text, slots_line};

use arrayvec::ArrayString;
use itoa::Buffer;
use sacn_packet::Slots;

/// A printed line of slots.
///
/// There is room for a number of 20 digits and a space, `slots`, a space, up to five digits, a
/// colon and up to three digits for each of the slots, and LF.
pub type SlotsLine = ArrayString<5147>;

/// The line of the slots that are not 0, each 0 to 255.
pub fn slots_line(slots: &Slots) -> SlotsLine
    ensures { result.bytes ≡ slots_line slots.now }
{
    let mut line = SlotsLine::new();
    push_slots(&mut line, slots);
    line
}

/// That line behind a number, put into an empty line, since one that is handed out is copied.
pub fn write_numbered_slots(line: &mut SlotsLine, number: u64, slots: &Slots)
    requires { line.old.bytes ≡ [] }
    ensures { line.new.bytes ≡ decimal number ++ codes " " ++ slots_line slots.now }
{
    line.push_str(Buffer::new().format(number));
    line.push_str(" ");
    push_slots(line, slots);
}

/// The line of the slots of a receiver, counted from 0, at the end of a run.
pub fn end_line(receiver: u16, slots: &Slots) -> SlotsLine
    ensures { result.bytes ≡ end_line receiver slots.now }
{
    let mut line = SlotsLine::new();
    line.push_str("end ");
    line.push_str(Buffer::new().format(receiver));
    line.push_str(" ");
    push_slots(&mut line, slots);
    line
}

fn push_slots(line: &mut SlotsLine, slots: &Slots)
    requires { length line.old.bytes ≤ 21 }
    ensures { line.new.bytes ≡ line.old.bytes ++ slots_line slots.now }
{
    line.push_str("slots");
    for (slot, value) in slots.iter().enumerate() {
        push_slot(line, slot as u16 + 1, *value);
    }
    line.push_str("\n");
}

fn push_slot(line: &mut SlotsLine, slot: u16, value: u8)
    requires number { slot ≤ 512 }
    requires space { length line.old.bytes + 10 ≤ 5147 }
    ensures text { line.new.bytes ≡ line.old.bytes ++ slot_text (slot, value) }
    ensures room { length line.new.bytes ≤ length line.old.bytes + 10 }
{
    if value != 0 {
        line.push_str(" ");
        push_number(line, slot);
        line.push_str(":");
        push_number(line, u16::from(value));
    }
}

// A number digit by digit: a line may have a thousand.
fn push_number(line: &mut SlotsLine, number: u16)
    requires small { number < 1000 }
    requires space { length line.old.bytes + 3 ≤ 5147 }
    ensures text { line.new.bytes ≡ line.old.bytes ++ decimal number }
    ensures room { length line.new.bytes ≤ length line.old.bytes + 3 }
{
    if number >= 100 {
        push_digit(line, number / 100);
    }
    if number >= 10 {
        push_digit(line, number / 10 % 10);
    }
    push_digit(line, number % 10);
}

fn push_digit(line: &mut SlotsLine, digit: u16)
    requires one { digit < 10 }
    requires space { length line.old.bytes < 5147 }
    ensures { line.new.bytes ≡ line.old.bytes ++ (48 + digit) ∷ [] }
{
    line.push(char::from(b'0' + digit as u8));
}
