ghost use Rattle.std.specs.Prelude.{◌≡◌, ◌≤◌, length};
ghost use Rattle.night_lines.specs.Records.{beginning_text, cut_text, no_record_line, record_line};

use crate::StartLine;
use crate::place::{Place, place_text};
use arrayvec::ArrayString;

/// Where a night is recorded.
#[derive(Clone, Copy, Debug)]
pub struct Recording<'a> {
    /// The name of the file, as it is shown.
    pub file: &'a str,
    /// A night may go on in it.
    pub resumes: bool,
    /// One goes on, from this place.
    pub place: Option<Place>,
    /// Its last line was cut.
    pub is_cut: bool,
}

/// The line of where a night is recorded, in a file whose name is shown in at most 256 bytes.
pub fn record_line(recording: &Recording<'_>) -> StartLine
    requires { length recording.now.file.now ≤ 256 }
    ensures { result.bytes ≡ record_line recording.now }
{
    let mut line = StartLine::new();
    line.push_str("record: ");
    line.push_str(recording.file);
    line.push_str(beginning_text(recording.place, recording.resumes).as_str());
    line.push_str(cut_text(recording.is_cut));
    line.push_str("\n");
    line
}

fn beginning_text(place: Option<Place>, resumes: bool) -> ArrayString<82>
    ensures { result.bytes ≡ beginning_text place resumes }
{
    let mut text = ArrayString::new();
    match place {
        Some(place) => {
            text.push_str(", goes on at ");
            text.push_str(place_text(place).as_str());
        }
        None if resumes => text.push_str(" is new"),
        None => {}
    }
    text
}

fn cut_text(is_cut: bool) -> &'static str
    ensures text { result.now ≡ cut_text is_cut }
    ensures room { length result.now ≤ 39 }
{
    if is_cut {
        "; its last line was cut, and is dropped"
    } else {
        ""
    }
}

/// The line of a night that is not recorded.
pub fn no_record_line() -> &'static str
    ensures { result.now ≡ no_record_line }
{
    "record: none; --record FILE keeps one\n"
}
