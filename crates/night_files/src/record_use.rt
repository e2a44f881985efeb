ghost use Rattle.std.specs.Prelude.{◌≡◌};
ghost use Rattle.night_files.specs.RecordUses.{access_to, is_cut_due, is_unused, kept_length};
ghost use Rattle.night_files.specs.RecordUses.{lock_to_take_over, refusal_of};
ghost use Rattle.night_files.specs.RecordUses.{refusal_once_locked, unused_record, use_of_night};

use crate::fault::FileFault;
use crate::file_lock::FileLock;
use crate::file_node::FoundFile;

/// What a record's file is opened for.
#[derive(Clone, Copy, Debug, PartialEq, Eq)]
pub enum RecordUse {
    /// A night begins in it.
    Begin,
    /// A night goes on in it.
    Resume,
    /// A night that another process keeps in it is watched.
    Watch,
}

/// What a file is opened for.
#[derive(Clone, Copy, Debug, PartialEq, Eq)]
pub struct FileAccess {
    pub reads: bool,
    pub writes: bool,
    /// What is written comes behind its end.
    pub appends: bool,
    /// It is made where it is not there.
    pub creates: bool,
}

/// Why no record is kept in a file.
#[derive(Clone, Copy, Debug, PartialEq, Eq)]
pub enum RecordRefusal {
    /// Something stands in it.
    NotEmpty,
    /// It is no regular file.
    NoFile,
    /// The file system has no locks.
    NoLocks,
    /// Its name leads to another file, or to none, by now.
    OtherName,
}

impl RecordUse {
    /// What a night opens its file for, by whether it goes on in it.
    pub fn of_night(resumes: bool) -> Self
        ensures { result ≡ use_of_night resumes }
    {
        if resumes {
            RecordUse::Resume
        } else {
            RecordUse::Begin
        }
    }

    /// How the file is opened, by whether its name leads to a FIFO.
    pub fn access_to(self, is_fifo: bool) -> FileAccess
        ensures { result ≡ access_to self is_fifo }
    {
        let both_ways = is_fifo && self != RecordUse::Watch;
        FileAccess {
            reads: both_ways || self != RecordUse::Begin,
            writes: both_ways,
            appends: !both_ways,
            creates: !both_ways && self != RecordUse::Watch,
        }
    }

    /// Why a file is refused, by whether it is a regular file, and how many bytes stand in it.
    pub fn refusal_of(self, is_regular: bool, length: u64) -> Option<RecordRefusal>
        ensures { result ≡ refusal_of self is_regular length }
    {
        match self {
            RecordUse::Begin if length > 0 => Some(RecordRefusal::NotEmpty),
            RecordUse::Resume | RecordUse::Watch if !is_regular => Some(RecordRefusal::NoFile),
            _ => None,
        }
    }

    /// The same once it is locked, by whether its name still leads to it, too.
    pub fn refusal_once_locked(
        self,
        is_named: bool,
        is_regular: bool,
        length: u64,
    ) -> Option<RecordRefusal>
        ensures { result ≡ refusal_once_locked self is_named is_regular length }
    {
        if is_named {
            self.refusal_of(is_regular, length)
        } else {
            Some(RecordRefusal::OtherName)
        }
    }
}

/// Whether a night that was watched is taken over, by what the lock of its file answered.
///
/// # Errors
///
/// `NoLocks` where the file system has none: then nobody knows whether the night is still kept.
pub fn lock_to_take_over(lock: FileLock) -> Result<bool, RecordRefusal>
    ensures { result ≡ lock_to_take_over lock }
{
    match lock {
        FileLock::Ours => Ok(true),
        FileLock::Theirs => Ok(false),
        FileLock::Missing => Err(RecordRefusal::NoLocks),
    }
}

/// Whether no night began in a file, by the answer of its lock, and by how many bytes stand in it,
/// where the system says.
pub fn is_unused(lock: FileLock, length: Option<u64>) -> bool
    ensures { result ≡ is_unused lock length }
{
    lock == FileLock::Ours && length == Some(0)
}

/// The name of the record that is removed if no night began in it: the one that is given, else that
/// of the file that was made for this run.
pub fn unused_record<'a>(given: Option<&'a str>, made: Option<&'a str>) -> Option<&'a str>
    ensures { result ≡ unused_record given.entry made.entry }
{
    match given {
        Some(name) => Some(name),
        None => made,
    }
}

/// How many bytes stand in what a record is kept in; 0 in a FIFO or a device, and where the system
/// does not say.
pub fn kept_length(found: Result<FoundFile, FileFault>) -> u64
    ensures { result ≡ kept_length found }
{
    match found {
        Ok(found) if found.is_regular => found.length,
        _ => 0,
    }
}

/// Whether a record's file, of so many bytes, is cut to those that are kept of it.
pub fn is_cut_due(length: u64, kept: u64) -> bool
    ensures { result ≡ is_cut_due length kept }
{
    kept < length
}
