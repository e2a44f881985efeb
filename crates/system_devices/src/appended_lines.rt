ghost use Rattle.std.specs.Prelude.{◌≡◌};
ghost use Rattle.night_record.specs.RecordLines.{number_behind};

use crate::fault::DeviceFault;
use crate::written_record::WrittenRecord;
use night_record::{FirstLines, LineFront, NightLines, first_lines};
use std::io::ErrorKind;
use std::thread::sleep;
use std::time::Duration;

// It is looked for a line again after so many milliseconds.
const LOOK_TURN: u64 = 5;

/// The lines that another process appends to a record, as they come, and their numbers.
#[derive(Drop)]
pub struct AppendedLines {
    record: WrittenRecord,
    lines: NightLines,
    /// The number of the newest line that was given, from 1; 0 where none was.
    pub number: u64,
}

impl AppendedLines {
    fn of(record: WrittenRecord) -> Self {
        AppendedLines {
            record,
            lines: NightLines::new(),
            number: 0,
        }
    }

    /// Looks if more came, unless bytes wait that were not looked at: whether a line stands there
    /// that was not given.
    ///
    /// # Errors
    ///
    /// The system's reason where the record cannot be read.
    pub fn look(&mut self) -> Result<bool, ErrorKind> {
        if let Some(place) = self.lines.next_place(self.record.is_file()) {
            let mut block = [0; 4096];
            let count = self.record.read(place, &mut block)?;
            self.lines.take_up(&block[..count]);
        }
        Ok(self.lines.has_line())
    }

    /// The next line of what came, without its LF; of a long one the first 201 bytes.
    pub fn next_line(&mut self) -> Option<LineFront>
        ensures number { self.new.number ≡ number_behind self.old.number result }
    {
        let Some(line) = self.lines.next_line() else {
            return None;
        };
        self.number = self.number.saturating_add(1);
        Some(line)
    }

    /// How many bytes were given in lines, their LFs included.
    pub fn bytes_given(&self) -> u64 {
        self.lines.bytes_given()
    }

    // The first two lines, if they come within so many turns.
    fn head_within(&mut self, rt: &HostRuntime, turns: u64) -> Option<FirstLines> {
        let first = self.line_within(rt, turns)?;
        let second = self.line_within(rt, first.turns_left)?;
        Some(first_lines(&first.line, &second.line))
    }

    // The next line, if it comes within so many turns.
    fn line_within(&mut self, rt: &HostRuntime, turns: u64) -> Option<LineInTime> {
        for turn in 0..turns {
            if let Some(line) = self.look_for_line().ok()? {
                return Some(LineInTime {
                    line,
                    turns_left: turns - turn,
                });
            }
            sleep(rt, Duration::from_millis(LOOK_TURN));
        }
        let line = self.look_for_line().ok()??;
        Some(LineInTime {
            line,
            turns_left: 0,
        })
    }

    fn look_for_line(&mut self) -> Result<Option<LineFront>, ErrorKind> {
        self.look()?;
        Ok(self.next_line())
    }
}

// A line, and how many turns are left behind it.
#[derive(Drop)]
struct LineInTime {
    line: LineFront,
    turns_left: u64,
}

/// The first two lines of the record of this name, without the last LF, and the lines behind them,
/// if these two come within so many milliseconds; `None` too where the name leads to no record.
///
/// # Errors
///
/// As [`WrittenRecord::open`].
pub fn lines_in_time(
    rt: &HostRuntime,
    name: &str,
    milliseconds: u64,
) -> Result<Option<(FirstLines, AppendedLines)>, DeviceFault> {
    let Some(record) = WrittenRecord::open(rt, name)? else {
        return Ok(None);
    };
    let mut lines = AppendedLines::of(record);
    match lines.head_within(rt, milliseconds / LOOK_TURN) {
        Some(head) => Ok(Some((head, lines))),
        None => Ok(None),
    }
}

/// Whether the record of this name is still there, with all lines that were given of it.
pub fn are_lines_there(rt: &HostRuntime, name: &str, lines: &AppendedLines) -> bool {
    lines.record.is_there(rt, name, lines.bytes_given())
}
