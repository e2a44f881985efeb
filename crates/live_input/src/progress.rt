ghost use Rattle.std.specs.Prelude.{◌≡◌, ◌≢◌, ◌<◌, ◌^◌, ℕ, List, [], ◌∷◌, IfNone, Option, None};
ghost use Rattle.std.specs.Prelude.{◌≤◌, Some, true, false, length};
ghost use Rattle.live_input.specs.Night.{Answer, before_lines, by_itself, close, due_after, tick};
ghost use Rattle.live_input.specs.Night.{dim, is_light_down, is_on, is_through};
ghost use Rattle.live_input.specs.Night.{after_tick, has_ended};
ghost use Rattle.live_input.specs.Night.{to_line};
ghost use Rattle.live_input.specs.Told.{Leaves, LeavesFirst, Tells, TellsFirst};
ghost use Rattle.live_input.specs.declared.given.Given.TheVariants.{Until};

use crate::given::{Given, given_line, refused_text};
use crate::keys::without_keys;
use crate::request::{Request, request_of};
use console::Call;
use desk_core::{Command, ENDING_TICKS, Instruction, SHORTEST_GAP};

// Ticks come on a grid, 40 a second.
const GRID: u64 = 25;

// Ticks with the light down before `end`. A receiver that ignores the levels of a termination, as
// E1.31 has it, holds the last look: so that is a dark one.
const DARK_TICKS: u8 = 4;

/// How far a night has come.
#[derive(Clone, Copy, Debug, PartialEq, Eq)]
pub enum Stage {
    /// Commands are taken.
    On,
    /// The light is down, since so many ticks.
    Dark(u8),
    /// The streams end, since so many ticks.
    Ended(u8),
}

// What the answers so far leave.
#[derive(Debug, Drop)]
pub struct Progress {
    // When the next tick is due.
    pub due: u64,
    pub stage: Stage,
    // Whether a line goes before the next tick: the last answer was a tick, or there was none.
    pub ticked: bool,
}

impl Progress {
    pub fn new() -> Self
        ensures { Leaves result [] }
    {
        Progress {
            due: 0,
            stage: Stage::On,
            ticked: true,
        }
    }

    pub fn is_over(&self) -> bool
        ensures { result ≡ is_through self.now.stage }
    {
        matches!(self.stage, Stage::Ended(ticks) if ticks >= ENDING_TICKS)
    }

    // What comes before any line that was typed.
    pub fn before_lines(&mut self, now: u64) -> Option<Given>
        requires below { now < 2 ^ 48 }
        requires not_over { is_through self.old.stage ≡ false }
        ensures none { IfNone result (self.new ≡ self.old) }
        ensures light { IfNone result (is_light_down self.new.stage ≡ false) }
        ensures tells { (given : List Answer) → Leaves self.old given
            → TellsFirst result (before_lines given now) }
        ensures leaves { (given : List Answer) → Leaves self.old given
            → LeavesFirst self.new (before_lines given now) given }
        ensures at_once { (until : ℕ) → result ≢ Some (Until until) }
    {
        if matches!(self.stage, Stage::Dark(ticks) if ticks >= DARK_TICKS) {
            return Some(self.close(now));
        }
        if now < self.due || self.ticked {
            return None;
        }
        Some(self.tick(now))
    }

    // The answer to a line that was typed.
    pub fn answer(&mut self, now: u64, line: &[u8]) -> Given
        requires below { now < 2 ^ 48 }
        requires looked_at { length line.now ≤ 201 }
        ensures tells { (given : List Answer) → Leaves self.old given
            → Tells result (to_line given now line.now) }
        ensures leaves { (given : List Answer) → Leaves self.old given
            → Leaves self.new (to_line given now line.now ∷ given) }
        ensures at_once { (until : ℕ) → result ≢ Until until }
    {
        let text = without_keys(line);
        let text = text.as_slice();
        match request_of(self.is_on(), now, line, text) {
            Request::Nothing(why) => self.give(Given::Refused(refused_text(line), why)),
            Request::Where => self.give(Given::Where(now)),
            Request::Help => self.give(Given::Help),
            Request::Leave => self.close(now),
            Request::Finish => self.dim(now),
            Request::Order(instruction) => {
                self.give(Given::Line(given_line(now, Call::Order(instruction), text)))
            }
        }
    }

    // What comes without a line that was typed.
    pub fn by_itself(&mut self, now: u64, ends: bool) -> Given
        requires below { now < 2 ^ 48 }
        requires not_over { is_through self.old.stage ≡ false }
        requires light { is_light_down self.old.stage ≡ false }
        ensures tells { (given : List Answer) → Leaves self.old given
            → Tells result (by_itself given ends now) }
        ensures leaves { (given : List Answer) → Leaves self.old given
            → Leaves self.new (by_itself given ends now ∷ given) }
    {
        if self.stage == Stage::On && ends {
            return self.dim(now);
        }
        if now < self.due {
            self.ticked = false;
            return Given::Until(self.due);
        }
        self.tick(now)
    }

    fn is_on(&self) -> bool
        ensures { result ≡ is_on self.now.stage }
    {
        self.stage == Stage::On
    }

    // Gives what is no tick, and leaves the stage as it is.
    fn give(&mut self, given: Given) -> Given
        ensures same { result ≡ given }
        ensures ticked { self.new ≡ record self.old { ticked = false } }
    {
        self.ticked = false;
        given
    }

    // The light goes down.
    fn dim(&mut self, now: u64) -> Given
        requires below { now < 2 ^ 48 }
        requires on { is_on self.old.stage ≡ true }
        ensures tells { (typed : Option (List ℕ)) → Tells result (dim now typed) }
        ensures leaves { (given : List Answer) → Leaves self.old given
            → Leaves self.new (dim now None ∷ given) }
        ensures at_once { (until : ℕ) → result ≢ Until until }
    {
        self.stage = Stage::Dark(0);
        self.ticked = false;
        let dark = Call::Order(Instruction::Plain(Command::Master(0)));
        Given::Line(given_line(now, dark, b"master 0"))
    }

    // The streams end.
    fn close(&mut self, now: u64) -> Given
        requires below { now < 2 ^ 48 }
        requires before { has_ended self.old.stage ≡ false }
        ensures tells { (typed : Option (List ℕ)) → Tells result (close now typed) }
        ensures leaves { (given : List Answer) → Leaves self.old given
            → Leaves self.new (close now None ∷ given) }
        ensures at_once { (until : ℕ) → result ≢ Until until }
    {
        self.stage = Stage::Ended(0);
        self.ticked = false;
        let end = Call::Order(Instruction::Plain(Command::End));
        Given::Line(given_line(now, end, b"end"))
    }

    fn tick(&mut self, now: u64) -> Given
        requires below { now < 2 ^ 48 }
        requires not_over { is_through self.old.stage ≡ false }
        requires light { is_light_down self.old.stage ≡ false }
        ensures tells { Tells result (tick now) }
        ensures leaves { (given : List Answer) → Leaves self.old given
            → Leaves self.new (tick now ∷ given) }
    {
        self.due = due_after(now);
        self.stage = self.stage.after_tick();
        self.ticked = true;
        Given::Line(given_line(now, Call::Tick, b"tick"))
    }
}

impl Stage {
    // A tick more, in a stage that counts them.
    fn after_tick(self) -> Stage
        requires not_over { is_through self ≡ false }
        requires light { is_light_down self ≡ false }
        ensures { result ≡ after_tick self }
    {
        match self {
            Stage::On => Stage::On,
            Stage::Dark(ticks) => Stage::Dark(ticks + 1),
            Stage::Ended(ticks) => Stage::Ended(ticks + 1),
        }
    }
}

fn due_after(moment: u64) -> u64
    requires { moment < 2 ^ 48 }
    ensures { result ≡ due_after moment }
{
    ((moment / GRID + 1) * GRID).max(moment + SHORTEST_GAP)
}
