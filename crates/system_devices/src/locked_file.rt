use crate::record_lock::{AskedLock, node_of, record_descriptor};
use arrayvec::ArrayString;
use byte_reading::first_bytes;
use night_files::{
    FileFault, FileLock, FileNode, FoundFile, RecordFault, RecordUse, process_in_list,
};
use night_record::silence_of;
use std::fmt::Write;
use std::fs::{File, OpenOptions, metadata};
use std::os::unix::fs::FileTypeExt;
use std::time::{Duration, Instant, SystemTime};

// Where the system lists the locks that are held, and how much of that is read.
const LOCKS: &str = "/proc/locks";

const MOST_OF_LOCKS: usize = 1_048_576;

/// How long a record had not been written when it was read.
#[derive(Clone, Copy)]
pub struct Pause {
    /// Until when: all that passes from then on passes by this clock, the time that it takes to
    /// read a long record too.
    pub until: Instant,
    pub milliseconds: u64,
}

/// A record's file that was opened for a purpose, and is fit for it at a first look.
#[derive(Drop)]
pub struct OpenedFile {
    file: File,
    purpose: RecordUse,
    found: FoundFile,
}

impl OpenedFile {
    /// Opens the file of this name.
    ///
    /// # Errors
    ///
    /// As [`RecordFault`] lists them.
    pub fn open(rt: &HostRuntime, name: &str, purpose: RecordUse) -> Result<Self, RecordFault> {
        let is_fifo = metadata(rt, name).is_ok_and(|found| found.file_type().is_fifo());
        let access = purpose.access_to(is_fifo);
        let file = OpenOptions::new()
            .read(access.reads)
            .write(access.writes)
            .append(access.appends)
            .create(access.creates)
            .open(rt, name)
            .map_err(FileFault::from)?;
        let found = found_file(&file)?;
        match purpose.refusal_of(found.is_regular, found.length) {
            Some(refusal) => Err(RecordFault::from(refusal)),
            None => Ok(OpenedFile {
                file,
                purpose,
                found,
            }),
        }
    }

    /// Whether it has a lock to ask for. A FIFO or a device has none: any number of nights can be
    /// kept in it.
    pub fn can_be_locked(&self) -> bool {
        self.found.is_regular
    }

    /// Asks for its lock.
    pub fn lock_at_once(&self, rt: &HostRuntime) -> AskedLock {
        AskedLock::at_once(record_descriptor(rt, &self.file))
    }

    /// Asks for its lock for a second.
    pub fn lock_within_a_second(&self, rt: &HostRuntime) -> AskedLock {
        AskedLock::within_a_second(rt, record_descriptor(rt, &self.file))
    }

    /// The file, to be written.
    pub fn file(&self) -> &File {
        &self.file
    }

    /// The file, to be kept.
    pub fn into_file(self) -> File {
        self.file
    }
}

/// A record's file behind its lock, to which its name still leads. Only such a file is read.
#[derive(Clone, Copy)]
pub struct LockedFile<'a> {
    file: &'a File,
    has_lock: bool,
}

impl<'a> LockedFile<'a> {
    /// Looks at a file again once its lock was asked for.
    ///
    /// # Errors
    ///
    /// `InUse` where another process has the lock; else as [`RecordFault`] lists them.
    pub fn look(
        rt: &HostRuntime,
        name: &str,
        opened: &'a OpenedFile,
        lock: AskedLock,
    ) -> Result<Self, RecordFault> {
        let has_lock = match lock.answer() {
            FileLock::Ours => true,
            FileLock::Missing => false,
            FileLock::Theirs => {
                return Err(RecordFault::InUse(lock_holder(rt, opened.found.node)));
            }
        };
        let named = node_of(&metadata(rt, name).map_err(FileFault::from)?);
        let found = found_file(&opened.file)?;
        let is_named = named.is_same(found.node);
        let purpose = opened.purpose;
        match purpose.refusal_once_locked(is_named, found.is_regular, found.length) {
            Some(refusal) => Err(RecordFault::from(refusal)),
            None => Ok(LockedFile {
                file: &opened.file,
                has_lock,
            }),
        }
    }

    /// Whether no other night can be kept in it; not where the file system has no locks.
    pub fn has_lock(&self) -> bool {
        self.has_lock
    }

    /// How long nobody wrote to it. Where the system's clock ran back, nothing of it counts.
    ///
    /// # Errors
    ///
    /// Where the system does not say.
    pub fn pause(&self, rt: &HostRuntime) -> Result<Pause, FileFault> {
        let written = self.file.metadata()?.modified()?;
        let until = Instant::now(rt)?;
        let passed = SystemTime::now(rt)?.duration_since(written);
        Ok(Pause {
            until,
            milliseconds: silence_of(passed.unwrap_or(Duration::ZERO)),
        })
    }

    /// What stands in it.
    ///
    /// # Errors
    ///
    /// Where the system does not read it, or an allocation failed.
    pub fn text(&self, rt: &HostRuntime) -> Result<Vec<u8>, FileFault> {
        let mut reader = self.file;
        Ok(first_bytes(rt.alloc(), &mut reader, usize::MAX)?)
    }
}

/// What an open file is.
///
/// # Errors
///
/// Where the system does not say.
pub fn found_file(file: &File) -> Result<FoundFile, FileFault> {
    let found = file.metadata()?;
    Ok(FoundFile {
        node: node_of(&found),
        is_regular: found.is_file(),
        length: found.len(),
    })
}

// The process that has the lock of a file. There is none where the list of locks names none, or
// where it has ended, and a writer that it left has the lock still.
fn lock_holder(rt: &HostRuntime, node: FileNode) -> Option<u32> {
    let mut list = File::open(rt, LOCKS).ok()?;
    let list = first_bytes(rt.alloc(), &mut list, MOST_OF_LOCKS).ok()?;
    let process = process_in_list(rt.alloc(), list.as_slice(), node).ok()??;
    let mut path = ArrayString::<32>::new();
    let _ = write!(path, "/proc/{process}");
    match metadata(rt, path.as_str()) {
        Ok(_) => Some(process),
        Err(_) => None,
    }
}
