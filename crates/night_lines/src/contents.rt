ghost use Rattle.std.specs.Prelude.{◌≡◌, ◌≤◌, ◌++◌, codes, length};
ghost use Rattle.night_lines.specs.Contents.{count_text, contents_line, doubts_text, notes_text};
ghost use Rattle.night_lines.specs.Contents.{skipped_lines_text, with_advice};

use arrayvec::ArrayString;
use itoa::Buffer;
use show_core::Counts;

/// The line of what a show has: six numbers of 20 digits have room.
pub type ContentsLine = ArrayString<280>;

// How many there are of what has a name of at most ten bytes.
type CountText = ArrayString<32>;

type DoubtsText = ArrayString<110>;

/// The line of what a show has, of how many of its lines are skipped, and of how many notes of
/// weight there are on it.
pub fn contents_line(counts: Counts, skipped: u32, notes: u64) -> ContentsLine
    ensures { result.bytes ≡ contents_line counts skipped notes }
{
    let mut line = ContentsLine::new();
    line.push_str("show: ");
    line.push_str(count_text(u64::from(counts.cues), "cue").as_str());
    line.push_str(", ");
    line.push_str(count_text(u64::from(counts.subs), "submaster").as_str());
    line.push_str(", ");
    line.push_str(count_text(u64::from(counts.groups), "group").as_str());
    line.push_str(", ");
    line.push_str(count_text(u64::from(counts.dimmers), "dimmer").as_str());
    line.push_str(doubts_text(skipped, notes).as_str());
    line.push_str("\n");
    line
}

// How many lines of a show are skipped, and how many notes of weight there are on it.
fn doubts_text(skipped: u32, notes: u64) -> DoubtsText
    ensures { result.bytes ≡ doubts_text skipped notes }
{
    match (skipped, notes) {
        (0, 0) => DoubtsText::new(),
        (0, _) => with_advice(notes_text(notes).as_str()),
        (_, 0) => with_advice(skipped_lines_text(skipped).as_str()),
        _ => with_advice(both_text(skipped, notes).as_str()),
    }
}

fn with_advice(doubts: &str) -> DoubtsText
    requires { length doubts.now ≤ 84 }
    ensures { result.bytes ≡ with_advice doubts.now }
{
    let mut text = DoubtsText::new();
    text.push_str("; ");
    text.push_str(doubts);
    text.push_str(": see cueplayer explain");
    text
}

fn both_text(skipped: u32, notes: u64) -> ArrayString<84>
    ensures { result.bytes ≡ skipped_lines_text skipped ++ codes ", " ++ notes_text notes }
{
    let mut text = ArrayString::new();
    text.push_str(skipped_lines_text(skipped).as_str());
    text.push_str(", ");
    text.push_str(notes_text(notes).as_str());
    text
}

fn skipped_lines_text(lines: u32) -> ArrayString<40>
    ensures { result.bytes ≡ skipped_lines_text lines }
{
    let mut text = ArrayString::new();
    text.push_str(count_text(u64::from(lines), "line").as_str());
    text.push_str(" skipped");
    text
}

fn notes_text(notes: u64) -> ArrayString<42>
    ensures { result.bytes ≡ notes_text notes }
{
    let mut text = ArrayString::new();
    text.push_str(count_text(notes, "note").as_str());
    text.push_str(" of weight");
    text
}

// So many of what has this name.
pub(crate) fn count_text(count: u64, name: &str) -> CountText
    requires { length name.now ≤ 10 }
    ensures { result.bytes ≡ count_text count name.now }
{
    let mut text = CountText::new();
    text.push_str(Buffer::new().format(count));
    text.push_str(" ");
    text.push_str(name);
    if count != 1 {
        text.push_str("s");
    }
    text
}
