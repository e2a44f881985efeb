ghost use Rattle.std.specs.Prelude.{◌≡◌};
ghost use Rattle.std.specs.Duration.{as_nanos};
ghost use Rattle.night_record.specs.Silence.{is_record_silent, lead_behind, silence_of};

use std::time::Duration;

/// How long a record has been silent, in milliseconds, up to 2^64 - 1.
pub fn silence_of(passed: Duration) -> u64
    ensures { result ≡ silence_of (as_nanos passed) }
{
    u64::try_from(passed.as_millis()).unwrap_or(u64::MAX)
}

/// Whether a main whose newest line came so long ago is silent, by how long it may be, in
/// milliseconds.
pub fn is_silent(passed: Duration, patience: u32) -> bool
    ensures { result ≡ is_record_silent (as_nanos passed) patience }
{
    passed.as_millis() >= u128::from(patience)
}

/// When a night leads that followed a main.
#[derive(Clone, Copy, Debug, PartialEq, Eq)]
pub struct Lead {
    /// How long the main was silent, in milliseconds.
    pub silence: u64,
    /// The moment from which the night goes on, in milliseconds.
    pub moment: u64,
}

impl Lead {
    /// By the moment of the newest line, in milliseconds, and how long ago that came: ten seconds
    /// of it count, as of a gap behind a record.
    pub fn behind(newest: u64, passed: Duration) -> Lead
        ensures { result ≡ lead_behind newest (as_nanos passed) }
    {
        let silence = silence_of(passed);
        Lead {
            silence,
            moment: newest.saturating_add(silence.min(LONGEST)),
        }
    }
}

const LONGEST: u64 = 10_000;
