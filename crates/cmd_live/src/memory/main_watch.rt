ghost use Rattle.std.specs.Prelude.{◌≡◌, ◌≤◌, ◌<◌, ◌∷◌, [], List, ℕ, length, take, map, reverse};
ghost use Rattle.std.specs.Prelude.{false, true, is_err, IfOk, IfSome, IsNone, OnErr};
ghost use Rattle.cmd_live.specs.Backup.{following_began};
ghost use Rattle.cmd_live.specs.Kept.{bytes_of_each, standing_lines};
ghost use Rattle.cmd_live.specs.declared.main_watch.MainEvent.TheVariants as event;

use super::kept::{copy, note};
use super::standing_lines::StandingLines;
use crate::main_watch::{MainDeed, MainEvent, MainWatch};
use devices::LinkFault;
use devices::memory::Faults;
use live_machine::Came;
use night_record::LineFront;
use std::alloc::Global;
use std::time::Duration;

/// Where a main is watched over memory: its record, of which more stands there at each look, and
/// lines that are typed, one at each wait. It stops telling where memory for an event is refused.
#[derive(Debug, Drop)]
pub struct MemoryWatch<'a> {
    /// The lines of the main.
    pub lines: StandingLines<'a>,
    /// The lines that were not taken yet, with those that are still to be typed.
    pub typed: &'a [LineFront],
    /// So many of these were typed.
    pub waiting: usize,
    /// So many looks yet until the record is gone.
    pub looks: u64,
    /// How long ago the newest line came,
    pub passed: Duration,
    /// and how much passes at each look.
    pub turn: Duration,
    /// The following began.
    pub is_on: bool,
    /// What happened, the first first.
    pub events: Vec<MainEvent>,
    /// Memory was refused: events are missing.
    pub is_lost: bool,
    /// Which looks, readings of the clock and waits fail.
    pub faults: Faults,
    ghost begun: { is_lost ≡ false → is_on ≡ following_began (reverse events.items) },
}

impl<'a> MemoryWatch<'a> {
    /// A main of which no line stands there yet. Nothing fails, and time stands still.
    pub fn new(alloc: Global, lines: &'a [LineFront], typed: &'a [LineFront], step: usize) -> Self
        ensures lines { (result.lines.lines.now ≡ lines.now) × (result.lines.standing ≡ 0) }
        ensures typed { (result.typed.now ≡ typed.now) × (result.waiting ≡ 0) }
        ensures step { result.lines.step ≡ step }
        ensures empty { result.events.items ≡ [] }
        ensures tells { result.is_lost ≡ false }
        ensures begun { result.is_on ≡ false }
    {
        MemoryWatch {
            lines: StandingLines::new(lines, step),
            typed,
            waiting: 0,
            looks: u64::MAX,
            passed: Duration::ZERO,
            turn: Duration::ZERO,
            is_on: false,
            events: Vec::new(alloc),
            is_lost: false,
            faults: Faults::new(0, 0),
        }
    }

    /// The following begins.
    pub fn begin(&mut self)
        ensures told { self.new.is_lost ≡ false → self.old.is_lost ≡ false }
        ensures begun { self.new.is_on ≡ true }
        ensures event { self.new.is_lost ≡ false → reverse self.new.events.items
            ≡ event.Began ∷ reverse self.old.events.items }
    {
        note(&mut self.events, &mut self.is_lost, MainEvent::Began);
        self.is_on = true;
    }

    fn happens(&mut self, event: MainEvent)
        requires { following_began (event ∷ []) ≡ false }
        ensures told { self.new.is_lost ≡ false → self.old.is_lost ≡ false }
        ensures event { self.new.is_lost ≡ false → reverse self.new.events.items
            ≡ event ∷ reverse self.old.events.items }
        ensures left { self.new.lines ≡ self.old.lines }
        ensures rest { (self.new.passed ≡ self.old.passed) × (self.new.is_on ≡ self.old.is_on) }
    {
        note(&mut self.events, &mut self.is_lost, event);
    }
}

impl MainWatch for MemoryWatch<'_> {
    ghost tells = { λ m. m.is_lost ≡ false };

    ghost events = { λ m. reverse m.events.items };

    ghost left = { λ m. bytes_of_each (standing_lines m.lines) };

    fn typed_line(&mut self) -> Option<LineFront> {
        if self.waiting == 0 || self.typed.is_empty() {
            self.happens(MainEvent::NothingTyped);
            return None;
        }
        let line = copy(&self.typed[0]);
        self.typed = &self.typed[1..];
        self.waiting -= 1;
        self.happens(MainEvent::Typed(copy(&line)));
        Some(line)
    }

    fn next_line(&mut self) -> Option<LineFront> {
        let line = self.lines.next_line()?;
        let event = MainEvent::Came(copy(&line));
        note(&mut self.events, &mut self.is_lost, event);
        Some(line)
    }

    fn look(&mut self) -> Result<bool, LinkFault> {
        if self.faults.count().is_err() {
            self.happens(MainEvent::Unreadable);
            return Err(LinkFault);
        }
        self.looks = self.looks.saturating_sub(1);
        let found = self.lines.look();
        self.happens(MainEvent::Looked(found));
        Ok(found)
    }

    fn has_begun(&self) -> bool {
        self.is_on
    }

    fn is_there(&mut self) -> bool {
        if self.looks > 0 {
            return true;
        }
        self.happens(MainEvent::Gone);
        false
    }

    fn time_passed(&mut self) -> Result<Duration, LinkFault> {
        if self.faults.count().is_err() {
            self.happens(MainEvent::ClockFailed);
            return Err(LinkFault);
        }
        self.passed = self.passed.saturating_add(self.turn);
        self.happens(MainEvent::Passed(self.passed));
        Ok(self.passed)
    }

    fn wait(&mut self) -> Result<Came, LinkFault> {
        if self.faults.count().is_err() {
            self.happens(MainEvent::Deaf);
            return Err(LinkFault);
        }
        self.waiting = self.waiting.saturating_add(1).min(self.typed.len());
        let came = if self.waiting > 0 {
            Came::Nothing
        } else {
            Came::End
        };
        self.happens(MainEvent::Heard(came));
        Ok(came)
    }

    fn keep(&mut self, line: &LineFront) {
        self.happens(MainEvent::Did(MainDeed::Kept(copy(line))));
    }

    fn tell_missing(&mut self, line: &LineFront) {
        self.happens(MainEvent::Did(MainDeed::Missing(copy(line))));
    }

    fn refuse(&mut self, line: &LineFront) {
        self.happens(MainEvent::Did(MainDeed::Refused(copy(line))));
    }

    fn help(&mut self) {
        self.happens(MainEvent::Did(MainDeed::Helped));
    }

    fn remind(&mut self) {
        self.happens(MainEvent::Did(MainDeed::Reminded));
    }
}
