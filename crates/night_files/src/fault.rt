ghost use Rattle.std.specs.Prelude.{◌≡◌};
ghost use Rattle.std.specs.IoError.{error_kind};
ghost use Rattle.night_files.specs.FileFaults.{device_fault, file_fault, file_record_fault};
ghost use Rattle.night_files.specs.FileFaults.{refused_record, unread_fault};
ghost use Rattle.night_files.specs.declared.fault.DeviceFault.TheVariants as device;

use crate::record_use::RecordRefusal;
use byte_reading::Unread;
use std::io::{Error, ErrorKind};

/// Why a device cannot be had.
#[derive(Clone, Copy, Debug, PartialEq, Eq)]
pub enum DeviceFault {
    /// The one of this name failed, for the system's reason.
    Device(&'static str, ErrorKind),
    /// An allocation failed.
    Memory,
}

impl DeviceFault {
    /// The device of this name failed so.
    pub fn of_system(name: &'static str, error: Error) -> Self
        ensures { result
            ≡ device_fault (error_kind error) (device.Device name.entry (error_kind error)) }
    {
        match error.kind() {
            ErrorKind::OutOfMemory => DeviceFault::Memory,
            kind => DeviceFault::Device(name, kind),
        }
    }
}

/// Why a record cannot be kept.
#[derive(Clone, Copy, Debug, PartialEq, Eq)]
pub enum RecordFault {
    /// Its file cannot be opened or read, for the system's reason.
    File(ErrorKind),
    /// Something stands in its file: no night is written over another.
    NotEmpty,
    /// A night is to go on in what is no file.
    NoFile,
    /// Another night is kept in its file, by this process where that is known.
    InUse(Option<u32>),
    /// The file system has no locks.
    NoLocks,
    /// What its lines go through cannot be had.
    Way(DeviceFault),
    /// An allocation failed.
    Memory,
}

impl From<FileFault> for RecordFault {
    ghost from_gives = { λ given e. e ≡ file_record_fault given };

    fn from(fault: FileFault) -> RecordFault {
        match fault {
            FileFault::System(kind) => RecordFault::File(kind),
            FileFault::Memory => RecordFault::Memory,
        }
    }
}

impl From<RecordRefusal> for RecordFault {
    ghost from_gives = { λ given e. e ≡ refused_record given };

    fn from(refusal: RecordRefusal) -> RecordFault {
        match refusal {
            RecordRefusal::NotEmpty => RecordFault::NotEmpty,
            RecordRefusal::NoFile => RecordFault::NoFile,
            RecordRefusal::NoLocks => RecordFault::NoLocks,
            RecordRefusal::OtherName => RecordFault::File(ErrorKind::NotFound),
        }
    }
}

/// Why the system did not do a step.
#[derive(Clone, Copy, Debug, PartialEq, Eq)]
pub enum FileFault {
    /// The system's reason.
    System(ErrorKind),
    /// An allocation failed.
    Memory,
}

impl From<Error> for FileFault {
    ghost from_gives = { λ given e. e ≡ file_fault (error_kind given) };

    fn from(error: Error) -> FileFault {
        match error.kind() {
            ErrorKind::OutOfMemory => FileFault::Memory,
            kind => FileFault::System(kind),
        }
    }
}

impl From<Unread> for FileFault {
    ghost from_gives = { λ given e. e ≡ unread_fault given };

    fn from(unread: Unread) -> FileFault {
        match unread {
            Unread::Device(kind) => FileFault::System(kind),
            Unread::Memory => FileFault::Memory,
        }
    }
}
