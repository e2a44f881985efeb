ghost use Rattle.std.specs.Prelude.{◌≡◌, None, if◌then◌else◌};
ghost use Rattle.night_record.specs.NightOpening.{goes_on};

use night_record::NightOpening;

/// The pause that counts for a night: that of its record, where it goes on there.
pub fn counted_pause<P: Drop>(opening: &NightOpening, pause: Option<P>) -> Option<P>
    ensures { result ≡ if goes_on opening.now.lines then pause else None }
{
    if opening.lines.goes_on() { pause } else { None }
}
