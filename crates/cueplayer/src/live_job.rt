ghost use Rattle.std.specs.Prelude.{◌≡◌, ◌≤◌};

use crate::live_name::live_name;
use crate::live_night::{NightEnd, play_alone, play_backup, play_spare};
use crate::reading::suitable_show;
use crate::standard::Standard;
use cmd_faults::RunFault;
use cmd_words::Night;
pub use night_opening::{LiveWords, MainWords, Playbill};
use remarks::{Failure, JobFault};
use sacn_source::Identity;
use show_jobs::identity;
use std::fs::symlink_metadata;
use std::io::ErrorKind;
use system_devices::remove_unused_record;

/// Plays by the clock what is typed.
///
/// # Errors
///
/// Why the night did not end well, or did not begin.
pub fn play_live(rt: &HostRuntime, mut night: Night, words: LiveWords<'_>) -> Result<(), JobFault>
    requires { night.priority ≤ 200 }
{
    if night.name.is_none() {
        let name = live_name(rt, words).map_err(|_| Failure::from(RunFault::Memory))?;
        night.name = Some(name);
    }
    let source = identity(&night)?;
    let before = RecordBefore::look(rt, words.record_file);
    Ok(before.play(rt, &night, words, source)??)
}

// Which record was missing before the night: its file is made for it.
#[derive(Clone, Copy)]
struct RecordBefore<'w> {
    missing: Option<&'w str>,
}

impl<'w> RecordBefore<'w> {
    fn look(rt: &HostRuntime, name: Option<&'w str>) -> Self {
        let Some(name) = name else {
            return RecordBefore { missing: None };
        };
        let found = symlink_metadata(rt, name);
        let is_missing = found.is_err_and(|error| error.kind() == ErrorKind::NotFound);
        RecordBefore {
            missing: if is_missing { Some(name) } else { None },
        }
    }

    // Plays the night, and removes the file that was made for it if it did not begin.
    fn play(
        self,
        rt: &HostRuntime,
        night: &Night,
        words: LiveWords<'_>,
        source: Identity,
    ) -> NightEnd
        requires { source.cid ≡ night.now.cid }
    {
        let end = play_words(rt, night, words, source);
        if end.is_err() {
            remove_unused_record(rt, self.missing);
        }
        end
    }
}

fn play_words(rt: &HostRuntime, night: &Night, words: LiveWords<'_>, source: Identity) -> NightEnd
    requires { source.cid ≡ night.now.cid }
{
    let standard = Standard::open(rt)?;
    let show = suitable_show(rt, night)?;
    let mut network = None;
    let bill = Playbill {
        night,
        words,
        show: show.as_slice(),
        source,
    };
    match (words.main, words.record_file) {
        (Some(main), _) => play_backup(rt, &bill, main, standard, &mut network),
        (None, Some(name)) if words.is_spare => {
            play_spare(rt, &bill, name, standard, &mut network)
        }
        (None, _) => play_alone(rt, &bill, standard, &mut network),
    }
}
