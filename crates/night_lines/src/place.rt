ghost use Rattle.std.specs.Prelude.{◌≡◌};
ghost use Rattle.night_lines.specs.Records.{cue_words, place_text};

use crate::clock::clock_text;
use arrayvec::ArrayString;
use console::cue_number;

// A moment of 34 bytes and a cue have room.
pub(crate) type PlaceText = ArrayString<69>;

/// Where a night is.
#[derive(Clone, Copy, Debug)]
pub struct Place {
    /// In milliseconds.
    pub moment: u64,
    /// The current cue, in thousandths.
    pub cue: Option<u32>,
}

pub(crate) fn place_text(place: Place) -> PlaceText
    ensures { result.bytes ≡ place_text place }
{
    let mut text = PlaceText::new();
    text.push_str(clock_text(place.moment).as_str());
    text.push_str(" of the night, ");
    text.push_str(cue_words(place.cue).as_str());
    text
}

fn cue_words(cue: Option<u32>) -> ArrayString<20>
    ensures { result.bytes ≡ cue_words cue }
{
    let mut text = ArrayString::new();
    match cue {
        None => text.push_str("before its first cue"),
        Some(cue) => {
            text.push_str("cue ");
            text.push_str(cue_number(cue).as_str());
        }
    }
    text
}
