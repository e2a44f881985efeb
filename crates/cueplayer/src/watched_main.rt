ghost use Rattle.std.specs.Prelude.{[]};

use crate::live_booth::LiveBooth;
use crate::main_record::MainRecord;
use cmd_live::MainWatch;
use devices::LinkFault;
use live_machine::Came;
use night_lines::{led_help_line, led_reminder_line, missing_line};
use night_record::{LineFront, input_has_ended, kept_line};
use std::time::{Duration, Instant};

// What is typed is waited for so long, in milliseconds, before the main's record is looked at
// again.
const TURN: u64 = 5;

/// Where a main is watched on this machine. It does not tell.
#[derive(Drop)]
pub struct WatchedMain<'m, 'w, 'a> {
    pub rt: &'a HostRuntime,
    pub main: &'m mut MainRecord<'w>,
    pub booth: &'m mut LiveBooth<'a>,
}

impl MainWatch for WatchedMain<'_, '_, '_> {
    ghost tells = { λ _. ⊥ };

    ghost events = { λ _. [] };

    ghost left = { λ _. [] };

    fn typed_line(&mut self) -> Option<LineFront> {
        self.main.typed.next_line()
    }

    fn next_line(&mut self) -> Option<LineFront> {
        let line = self.main.lines.next_line()?;
        if let Ok(now) = Instant::now(self.rt) {
            self.main.last = now;
        }
        Some(line)
    }

    fn look(&mut self) -> Result<bool, LinkFault> {
        self.main.lines.look().map_err(|_| LinkFault)
    }

    fn has_begun(&self) -> bool {
        self.main.has_begun
    }

    fn is_there(&mut self) -> bool {
        self.main.is_there(self.rt)
    }

    fn time_passed(&mut self) -> Result<Duration, LinkFault> {
        self.main.last.elapsed(self.rt).map_err(|_| LinkFault)
    }

    fn wait(&mut self) -> Result<Came, LinkFault> {
        wait_for_typed(self.booth, self.main)
    }

    fn keep(&mut self, line: &LineFront) {
        self.booth
            .keep_led(kept_line(line).as_slice(), !self.main.has_begun);
    }

    fn tell_missing(&mut self, line: &LineFront) {
        let told = missing_line(line.as_slice());
        self.booth.screen().tell(told.as_slice());
    }

    fn refuse(&mut self, line: &LineFront) {
        self.booth.refuse_led(line.as_slice());
    }

    fn help(&mut self) {
        self.booth.screen().show(led_help_line().as_bytes());
    }

    fn remind(&mut self) {
        self.booth.screen().tell(led_reminder_line().as_bytes());
    }
}

fn wait_for_typed(booth: &mut LiveBooth<'_>, main: &mut MainRecord<'_>) -> Result<Came, LinkFault> {
    let came = booth.wait_led(TURN, &mut main.typed)?;
    main.input_ended = input_has_ended(main.input_ended, came);
    Ok(came)
}
