ghost use Rattle.std.specs.Prelude.{◌≤◌, IfOk};

use crate::descriptor_poll::DescriptorPoll;
use crate::fault::DeviceFault;
use crate::record_lock::is_same;
use mio::Interest;
use night_record::{RecordKind, RecordRead, count_of_failed_read};
use std::fs::{File, OpenOptions, metadata};
use std::io::{Error, ErrorKind, Read};
use std::os::fd::AsRawFd;
use std::os::unix::fs::{FileExt, FileTypeExt};

/// A record that another process writes.
#[derive(Drop)]
pub struct WrittenRecord {
    file: File,
    kind: RecordKind,
    // A FIFO is asked if something is there.
    fifo: Option<DescriptorPoll>,
}

impl WrittenRecord {
    /// The record of this name; `None` where that leads to none.
    ///
    /// # Errors
    ///
    /// `Device` where it cannot be opened, for the system's reason; `Memory` if an allocation
    /// failed.
    pub fn open(rt: &HostRuntime, name: &str) -> Result<Option<Self>, DeviceFault> {
        let found = metadata(rt, name).map_err(of_system)?;
        let Some(kind) = RecordKind::of(found.is_file(), found.file_type().is_fifo()) else {
            return Ok(None);
        };
        let file = OpenOptions::new()
            .read(true)
            .write(kind.is_opened_to_write())
            .open(rt, name)
            .map_err(of_system)?;
        let fifo = match kind {
            RecordKind::File => None,
            RecordKind::Fifo => {
                let poll = DescriptorPoll::open(rt, file.as_raw_fd(), Interest::READABLE);
                Some(poll.map_err(of_system)?)
            }
        };
        Ok(Some(WrittenRecord { file, kind, fifo }))
    }

    /// Whether what stands in it can be read again, as of a file.
    pub fn is_file(&self) -> bool {
        self.kind == RecordKind::File
    }

    /// Whether it is still there under its name, with the lines that were given of it: so many
    /// bytes.
    pub fn is_there(&self, rt: &HostRuntime, name: &str, given: u64) -> bool {
        let (Ok(named), Ok(opened)) = (metadata(rt, name), self.file.metadata()) else {
            return false;
        };
        let is_named = is_same(&named, &opened);
        self.kind.is_there(is_named, opened.len(), given)
    }

    /// Reads what stands behind so many bytes, as much as there is and fits, and writes it to the
    /// front of the block: so many bytes. A FIFO gives what was not read.
    ///
    /// # Errors
    ///
    /// The system's reason where it cannot be read.
    pub fn read(&mut self, place: u64, block: &mut [u8; 4096]) -> Result<usize, ErrorKind>
        ensures within { IfOk result (λ count. count ≤ 4096) }
    {
        let is_ready = match &mut self.fifo {
            Some(fifo) => fifo.is_ready(0).ok(),
            None => None,
        };
        let answer = match self.kind.next_read(is_ready) {
            RecordRead::AtPlace => self.file.read_at(block, place),
            RecordRead::Onward => self.file.read(block),
            RecordRead::Nothing => return Ok(0),
        };
        match answer {
            Ok(count) => Ok(count),
            Err(error) => count_of_failed_read(error.kind()),
        }
    }
}

fn of_system(error: Error) -> DeviceFault {
    DeviceFault::of_system("the main's record", error)
}
