ghost use Rattle.std.specs.Prelude.{◌≡◌, ◌≤◌, ◌<◌, ◌∷◌, ◌++◌, [], List, ℕ, length, take, false};
ghost use Rattle.std.specs.Prelude.{true};
ghost use Rattle.std.specs.Prelude.{is_err, reverse, map, IfOk, IfSome, IsNone, OnErr};
ghost use Rattle.devices.specs.Failing.{IsCounted, is_failing};
ghost use Rattle.cmd_live.specs.Spare.{AreFirstLines, has_had_lock, given_by_record};
ghost use Rattle.cmd_live.specs.Kept.{bytes_of_each, standing_lines};
ghost use Rattle.cmd_live.specs.declared.played_record.RecordEvent.TheVariants.{Gave};
ghost use Rattle.cmd_live.specs.declared.played_record.RecordEvent.TheVariants.{Looked};
ghost use Rattle.cmd_live.specs.declared.played_record.RecordEvent.TheVariants.{Tried};
ghost use Rattle.cmd_live.specs.declared.played_record.RecordEvent.TheVariants.{Failed};

use super::kept::{copy, note};
use super::standing_lines::StandingLines;
use crate::played_record::{PlayedRecord, RecordEvent};
use devices::LinkFault;
use devices::memory::Faults;
use night_record::LineFront;
use std::alloc::Global;

/// The record of a night over memory, to which more is written before each look, and all before its
/// lock is let go. It stops telling where memory for an event is refused.
#[derive(Debug, Drop)]
pub struct MemoryPlayedRecord<'a> {
    /// Its lines.
    pub lines: StandingLines<'a>,
    /// Its lock is refused so many times yet.
    pub refusals: u64,
    pub has_lock: bool,
    /// What happened at it, the first first.
    pub events: Vec<RecordEvent>,
    /// Memory was refused: events are missing.
    pub is_lost: bool,
    pub faults: Faults,
    ghost lock: { is_lost ≡ false → has_lock ≡ has_had_lock (reverse events.items) },
}

impl<'a> MemoryPlayedRecord<'a> {
    /// A record in which no line stands yet. Of the looks and tries of its lock those fail that
    /// `faults` says.
    pub fn new(
        alloc: Global,
        lines: &'a [LineFront],
        step: usize,
        refusals: u64,
        faults: Faults,
    ) -> Self
        ensures lines { (result.lines.lines.now ≡ lines.now) × (result.lines.standing ≡ 0) }
        ensures empty { result.events.items ≡ [] }
        ensures tells { result.is_lost ≡ false }
        ensures lock { (result.refusals ≡ refusals) × (result.has_lock ≡ false) }
        ensures step { result.lines.step ≡ step }
        ensures faults { result.faults ≡ faults }
    {
        MemoryPlayedRecord {
            lines: StandingLines::new(lines, step),
            refusals,
            has_lock: false,
            events: Vec::new(alloc),
            is_lost: false,
            faults,
        }
    }
}

impl PlayedRecord for MemoryPlayedRecord<'_> {
    ghost tells = { λ m. m.is_lost ≡ false };

    ghost events = { λ m. reverse m.events.items };

    ghost written = { λ m. reverse (bytes_of_each (standing_lines m.lines))
        ++ given_by_record (reverse m.events.items) };

    fn next_line(&mut self) -> Option<LineFront> {
        let line = self.lines.next_line()?;
        let event = RecordEvent::Gave(copy(&line));
        note(&mut self.events, &mut self.is_lost, event);
        Some(line)
    }

    fn look(&mut self) -> Result<bool, LinkFault> {
        if self.faults.count().is_err() {
            note(&mut self.events, &mut self.is_lost, RecordEvent::Failed);
            return Err(LinkFault);
        }
        let found = if self.has_lock {
            self.lines.look_at_all()
        } else {
            self.lines.look()
        };
        note(
            &mut self.events,
            &mut self.is_lost,
            RecordEvent::Looked(found),
        );
        Ok(found)
    }

    fn has_lock(&self) -> bool {
        self.has_lock
    }

    fn take_over(&mut self) -> Result<bool, LinkFault> {
        if self.faults.count().is_err() {
            note(&mut self.events, &mut self.is_lost, RecordEvent::Failed);
            return Err(LinkFault);
        }
        if self.refusals > 0 {
            self.refusals -= 1;
            note(
                &mut self.events,
                &mut self.is_lost,
                RecordEvent::Tried(self.has_lock),
            );
            return Ok(self.has_lock);
        }
        note(
            &mut self.events,
            &mut self.is_lost,
            RecordEvent::Tried(true),
        );
        self.has_lock = true;
        Ok(true)
    }

    fn wait_turn(&mut self) {}
}
