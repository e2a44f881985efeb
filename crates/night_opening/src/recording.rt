ghost use Rattle.std.specs.Prelude.{None, Some, false, if◌then◌else◌};
ghost use Rattle.cmd_live.specs.Stands.{OfEach};
ghost use Rattle.night_record.specs.NightOpening.{goes_on, has_cut_line};
ghost use Rattle.night_opening.specs.Recordings.{IsPlaceIn, IsRecording};

use crate::playbill::LiveWords;
use cmd_live::Night;
use fade_core::Fader;
use night_lines::{Place, Recording};
use night_record::TakenUp;

/// Where a night of these words is recorded, if anywhere, that begins or goes on in a file of so
/// many bytes, behind these lines of it and at this place.
pub fn recording_of<'w>(
    words: &LiveWords<'w>,
    lines: &TakenUp,
    length: u64,
    place: Place,
) -> Option<Recording<'w>>
    ensures { IsRecording words.now words.now.resumes
        (if goes_on lines.now then Some place else None) (has_cut_line lines.now length) result }
{
    Some(Recording {
        file: words.record_file?,
        resumes: words.resumes,
        place: if lines.goes_on() { Some(place) } else { None },
        is_cut: lines.has_cut_line(length),
    })
}

/// The same of a night that begins in a new file.
pub fn new_recording<'w>(words: &LiveWords<'w>) -> Option<Recording<'w>>
    ensures { IsRecording words.now false None false result }
{
    Some(Recording {
        file: words.record_file?,
        resumes: false,
        place: None,
        is_cut: false,
    })
}

/// Where a night is.
pub fn place_of<F: Fader>(night: &Night<F>) -> Place
    ensures { OfEach F.stands_for night.now (λ p happened. IsPlaceIn p happened result) }
{
    Place {
        moment: night.moment(),
        cue: night.console.current(),
    }
}
