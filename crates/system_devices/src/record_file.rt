use crate::bounded_output::{Names, open_output};
use crate::locked_file::{LockedFile, OpenedFile, Pause, found_file};
use crate::record::Record;
use crate::record_lock::{AskedLock, record_descriptor};
use line_queue::Notice;
use night_files::{
    FileFault, RecordFault, RecordUse, is_cut_due, is_unused, kept_length, lock_to_take_over,
    unused_record,
};
use std::env;
use std::fs::{File, remove_file};

const NAMES: Names = Names {
    output: "the record",
    pipe: "CUEPLAYER_RECORD_PIPE",
    notice: Notice {
        mark: "! ",
        lines: "lines",
    },
};

// Names the record's file where it was made for this run, so that the writer could be given it.
const MADE: &str = "CUEPLAYER_RECORD_MADE";

/// The file of a record before a night begins or goes on in it. It is locked, and as it was.
#[derive(Drop)]
pub struct RecordFile {
    opened: OpenedFile,
    text: Vec<u8>,
    pause: Option<Pause>,
    has_lock: bool,
}

impl RecordFile {
    /// Opens and locks a record's file: one that is new or empty, a FIFO or a device; or, where a
    /// night resumes, any regular file, which is read whole.
    ///
    /// # Errors
    ///
    /// As [`RecordFault`] lists them. The file is as it was then.
    pub fn open(rt: &HostRuntime, name: &str, resumes: bool) -> Result<Self, RecordFault> {
        let opened = OpenedFile::open(rt, name, RecordUse::of_night(resumes))?;
        let mut text = Vec::new(rt.alloc());
        let mut pause = None;
        if !opened.can_be_locked() {
            return Ok(RecordFile::of(opened, text, pause, true));
        }
        let locked = LockedFile::look(rt, name, &opened, opened.lock_within_a_second(rt))?;
        let has_lock = locked.has_lock();
        if resumes {
            pause = Some(locked.pause(rt)?);
            text = locked.text(rt)?;
        }
        Ok(RecordFile::of(opened, text, pause, has_lock))
    }

    /// Opens the file of a night's record that another process keeps, without its lock.
    ///
    /// # Errors
    ///
    /// As [`RecordFault`] lists them.
    pub fn watch(rt: &HostRuntime, name: &str) -> Result<Self, RecordFault> {
        let opened = OpenedFile::open(rt, name, RecordUse::Watch)?;
        Ok(RecordFile::of(opened, Vec::new(rt.alloc()), None, false))
    }

    fn of(opened: OpenedFile, text: Vec<u8>, pause: Option<Pause>, has_lock: bool) -> Self {
        RecordFile {
            opened,
            text,
            pause,
            has_lock,
        }
    }

    /// Takes the lock of a watched file, unless the night of its record is still kept in it, by its
    /// program or by the writer of that; whether it is taken.
    ///
    /// # Errors
    ///
    /// `NoLocks` where the file system has none; `File` as [`RecordFault`] lists it.
    pub fn take_over(&mut self, rt: &HostRuntime, name: &str) -> Result<bool, RecordFault> {
        let lock = self.opened.lock_at_once(rt);
        if !lock_to_take_over(lock.answer())? {
            return Ok(false);
        }
        let pause = LockedFile::look(rt, name, &self.opened, lock)?.pause(rt)?;
        self.pause = Some(pause);
        self.has_lock = true;
        Ok(true)
    }

    /// What stands in it, where a night resumes.
    pub fn text(&self) -> &[u8] {
        self.text.as_slice()
    }

    /// How many bytes stand in it; 0 where the system does not say.
    pub fn length(&self) -> u64 {
        kept_length(found_file(self.opened.file()))
    }

    /// How long it had not been written, where a night resumes.
    pub fn pause(&self) -> Option<Pause> {
        self.pause
    }

    /// Whether no other night can be kept in it.
    pub fn has_lock(&self) -> bool {
        self.has_lock
    }

    /// Cuts it to so many bytes, and has lines kept behind them, by the writer that the environment
    /// names a pipe to, if it does.
    ///
    /// # Errors
    ///
    /// As [`RecordFault`] lists them.
    pub fn keep_lines(self, rt: &HostRuntime, length: usize) -> Result<Record, RecordFault> {
        let kept = length as u64;
        let is_longer = is_cut_due(self.length(), kept);
        let file = self.opened.into_file();
        if is_longer {
            file.set_len(kept).map_err(FileFault::from)?;
        }
        let lines = open_output(rt, file, NAMES).map_err(RecordFault::Way)?;
        Ok(Record::behind(rt, lines))
    }
}

/// Removes the file of a record if no night began in it: the one of this name, or the one that was
/// made before this program was started.
pub fn remove_unused_record(rt: &HostRuntime, given: Option<&str>) {
    let made = env::var(rt, MADE).ok();
    if let Some(name) = unused_record(given, made.as_deref()) {
        remove_if_unused(rt, name);
    }
}

// Removes it if it can be read, this program has its lock then, and no byte stands in it.
fn remove_if_unused(rt: &HostRuntime, name: &str) {
    let Ok(file) = File::open(rt, name) else {
        return;
    };
    let lock = AskedLock::at_once(record_descriptor(rt, &file));
    let length = found_file(&file).ok().map(|found| found.length);
    if is_unused(lock.answer(), length) {
        let _ = remove_file(rt, name);
    }
}
