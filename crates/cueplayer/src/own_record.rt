ghost use Rattle.std.specs.Prelude.{[], OnOk};
ghost use Rattle.cmd_live.specs.Beginning.{CanFollow};

use crate::held_record::HeldRecord;
use crate::live_job::Playbill;
use crate::opening::head_of;
use crate::reading::{HEAD_PATIENCE, record_lines};
use cmd_live::{Night, PlayedRecord, Silent, Spare};
use devices::LinkFault;
use fade_core::{Fader, StepFader};
use night_opening::{lines_to_take_up, opening_behind};
use night_record::{LineFront, NightOpening};
use remarks::{JobFault, Refusal, of_record};
use std::thread::sleep;
use std::time::Duration;
use system_devices::{AppendedLines, RecordFault, RecordFile, are_lines_there};

// It is looked so often, in milliseconds, whether the night is still played.
const TURN: u64 = 10;

/// The record of a night that another process plays, behind its head. It does not tell.
#[derive(Drop)]
pub struct OwnRecord<'a> {
    rt: &'a HostRuntime,
    name: &'a str,
    pub lines: AppendedLines,
    file: RecordFile,
    fault: Option<RecordFault>,
}

impl<'a> OwnRecord<'a> {
    /// Opens the record in the file of this name, where that is of this very night.
    ///
    /// # Errors
    ///
    /// Why it is not taken up.
    pub fn open(
        rt: &'a HostRuntime,
        bill: &Playbill<'_, '_>,
        name: &'a str,
    ) -> Result<Self, JobFault> {
        let night = head_of(rt, bill)?;
        let lines = lines_to_take_up(&night, record_lines(rt, name, HEAD_PATIENCE)?)?;
        let file = RecordFile::watch(rt, name).map_err(|fault| of_record(name, fault))?;
        Ok(OwnRecord {
            rt,
            name,
            lines,
            file,
            fault: None,
        })
    }

    /// Takes the record up over no link, until the process that plays the night has ended.
    ///
    /// # Errors
    ///
    /// `Record` at a line that no live night gives.
    pub fn stand_by(self, night: &mut Night<StepFader>) -> Result<EndedRecord<'a>, JobFault>
        requires { CanFollow ⟦<StepFader as Fader>⟧.stands_for night.old }
        ensures { OnOk result (CanFollow ⟦<StepFader as Fader>⟧.stands_for night.new) }
    {
        let mut spare = Spare { record: self };
        match night.follow_main(&mut spare, &mut Silent) {
            Some(_) => Ok(EndedRecord {
                record: spare.record,
            }),
            None => {
                let number = spare.record.lines.number;
                Err(JobFault::Record(Refusal::spare_line(number)))
            }
        }
    }

    fn fail<T>(&mut self, fault: RecordFault) -> Result<T, LinkFault> {
        self.fault = Some(fault);
        Err(LinkFault)
    }
}

impl PlayedRecord for OwnRecord<'_> {
    ghost tells = { λ _. ⊥ };

    ghost events = { λ _. [] };

    ghost written = { λ _. [] };

    fn next_line(&mut self) -> Option<LineFront> {
        self.lines.next_line()
    }

    fn look(&mut self) -> Result<bool, LinkFault> {
        match self.lines.look() {
            Ok(found) => Ok(found),
            Err(kind) => self.fail(RecordFault::File(kind)),
        }
    }

    fn has_lock(&self) -> bool {
        self.file.has_lock()
    }

    fn take_over(&mut self) -> Result<bool, LinkFault> {
        match self.file.take_over(self.rt, self.name) {
            Ok(is_had) => Ok(is_had),
            Err(fault) => self.fail(fault),
        }
    }

    fn wait_turn(&mut self) {
        sleep(self.rt, Duration::from_millis(TURN));
    }
}

/// The record of a night whose process has ended, or that could not be taken up to its end.
#[derive(Drop)]
pub struct EndedRecord<'a> {
    record: OwnRecord<'a>,
}

impl<'a> EndedRecord<'a> {
    /// Its file, which this process holds, and how the night goes on behind what was given of it.
    ///
    /// # Errors
    ///
    /// `Record` where it cannot be kept.
    pub fn into_held(self) -> Result<(HeldRecord<'a>, NightOpening), JobFault> {
        let record = self.record;
        let is_there = are_lines_there(record.rt, record.name, &record.lines);
        let given = record.lines.bytes_given();
        let opening = opening_behind(record.name, given, record.fault, is_there)?;
        Ok((HeldRecord::of(record.name, record.file), opening))
    }
}
