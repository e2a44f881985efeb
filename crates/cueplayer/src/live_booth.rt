ghost use Rattle.std.specs.Prelude.{[]};

use crate::link_watch::LinkTeller;
use crate::screen::Screen;
use arrayvec::ArrayVec;
use cmd_live::{Booth, Heard};
use devices::{Link, LinkFault};
use live_input::Reason;
use live_machine::{Came, InputEnd, NightClock, NightInput};
use night_lines::{input_ended_line, keys_ignored_line, typed_end_line};
use night_opening::led_refusal_line;
use night_record::{NightLines, line_moment, where_moment};
use remarks::refused_line;
use std::time::Instant;
use system_devices::{Record, SystemClock, TypedInput};

/// Where a night is run from on this machine: the clock, standard input, the record and the screen.
/// It does not tell what it did.
#[derive(Drop)]
pub struct LiveBooth<'a> {
    rt: &'a HostRuntime,
    clock: NightClock<SystemClock<'a>>,
    input: NightInput<TypedInput<'a>>,
    // When the input ended, until that is told.
    input_end: InputEnd,
    // While a main leads: the moment of its newest line that has one, and 0 before the first.
    led: u64,
    record: Record,
    screen: Screen,
    watch: Option<LinkTeller<'a>>,
}

impl<'a> LiveBooth<'a> {
    /// Its moments are milliseconds from `start` on.
    pub fn new(
        rt: &'a HostRuntime,
        start: Instant,
        input: NightInput<TypedInput<'a>>,
        record: Record,
        screen: Screen,
    ) -> Self {
        LiveBooth {
            rt,
            clock: NightClock::new(SystemClock::new(rt, Some(start)), 0),
            input,
            input_end: InputEnd::new(),
            led: 0,
            record,
            screen,
            watch: None,
        }
    }

    /// From now on the cards, addresses and routes are watched.
    pub fn watch(&mut self, watch: LinkTeller<'a>) {
        self.watch = Some(watch);
    }

    /// The screen.
    pub fn screen(&mut self) -> &mut Screen {
        &mut self.screen
    }

    /// Keeps a line of a main's record: none is dropped where that may take time.
    pub fn keep_led(&mut self, line: &[u8], may_wait: bool) {
        self.led = line_moment(line).unwrap_or(self.led);
        if may_wait {
            self.record.copy(line, self.screen.messages());
        } else {
            self.record.keep(line, self.screen.messages());
        }
    }

    /// Waits at most so long for what is typed while the night follows a main. Before that it looks
    /// at the network, for the moment of the main, and hands on what waits.
    ///
    /// # Errors
    ///
    /// Where nothing can be waited for.
    pub fn wait_led(
        &mut self,
        milliseconds: u64,
        typed: &mut NightLines,
    ) -> Result<Came, LinkFault> {
        self.look(self.led);
        self.screen.hand_on();
        typed.hear(&mut self.input.input, milliseconds)
    }

    /// Tells that a line which was typed while the night follows a main is not carried out.
    pub fn refuse_led(&mut self, text: &[u8]) {
        self.screen.tell(led_refusal_line(text).as_slice());
    }

    /// The night goes on by itself from now on, with this that was typed and is not answered yet.
    pub fn lead(&mut self, now: Instant, typed: ArrayVec<u8, 4096>, has_ended: bool) {
        self.clock.clock.start = Some(now);
        self.input.hold(typed, has_ended);
    }

    /// Hands on what waits, at the end of the night, and waits for writers: first those of the
    /// record, since what that lacks is told on the screen.
    pub fn finish(&mut self) {
        self.record.finish(self.rt, self.screen.messages());
        self.screen.finish(self.rt);
    }

    // Looks at the network, and tells for this moment of the night what changed.
    fn look(&mut self, moment: u64) {
        if let Some(watch) = &mut self.watch {
            watch.look(self.rt, moment, &mut self.screen);
        }
    }

    // Tells again, for this moment of the night, what is wrong with the network.
    fn tell_again(&mut self, moment: u64) {
        if let Some(watch) = &self.watch {
            watch.tell_again(self.rt, moment, &mut self.screen);
        }
    }
}

impl Booth for LiveBooth<'_> {
    ghost tells = { λ _. ⊥ };

    ghost state = { λ _. record {
      begun = [];
      happened = [];
      kept = record { items = []; failures = 0 };
      shown = record { items = []; failures = 0 };
      told = [];
      waited = [];
      faults = 0;
      deeds = [];
    } };

    fn begin(&mut self, moment: u64) {
        self.clock.start = moment;
    }

    // The night asks for the moment at each turn, so what waits is handed on at each, and the
    // network is looked at.
    fn moment(&mut self) -> Result<u64, LinkFault> {
        self.screen.hand_on();
        let moment = self.clock.moment()?;
        self.look(moment);
        if self.input_end.is_told(moment) {
            self.screen.tell(input_ended_line().as_bytes());
        }
        Ok(moment)
    }

    fn wait(&mut self, moment: u64, due: u64, block: &mut [u8; 4096]) -> Result<Heard, LinkFault> {
        match self.input.hear(moment, due, block)? {
            Came::Bytes(count) => Ok(Heard::Bytes(count)),
            Came::End => {
                let ends_night = self.input.ends_night;
                self.input_end.come(moment, ends_night);
                Ok(Heard::End(ends_night))
            }
            Came::TypedEnd => {
                self.screen.tell(typed_end_line().as_bytes());
                Ok(Heard::Nothing)
            }
            Came::Nothing => Ok(Heard::Nothing),
        }
    }

    fn keep<L: Link>(&mut self, line: &[u8], _link: &L) -> Result<(), LinkFault> {
        self.record.keep(line, self.screen.messages());
        self.input_end.pass_line(line);
        Ok(())
    }

    // What is wrong with the network is told again behind where the night is.
    fn show<L: Link>(&mut self, line: &[u8], _link: &L) -> Result<(), LinkFault> {
        self.screen.show(line);
        if let Some(moment) = where_moment(line) {
            self.tell_again(moment);
        }
        Ok(())
    }

    fn refuse(&mut self, text: &[u8], why: Reason) {
        self.screen.tell(refused_line(text, why.text()).as_slice());
    }

    fn ignore_keys(&mut self) {
        self.screen.tell(keys_ignored_line().as_bytes());
    }
}
