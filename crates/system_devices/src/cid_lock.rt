ghost use Rattle.std.specs.Prelude.{◌≡◌, IfOk};

use crate::record_lock::AskedLock;
pub use night_files::LockFault;
use night_files::{
    FileFault, FileLock, FoundFolder, PathText, lock_folder, lock_path, named_folder,
    runtime_folder,
};
use std::env;
use std::fs::{File, OpenOptions, create_dir, metadata, symlink_metadata};
use std::io::{Error, ErrorKind};
use std::os::fd::AsRawFd;
use std::os::unix::fs::MetadataExt;

/// That the lock of a CID was asked for on this machine, and no other console has it. It is held as
/// long as this value is there, and the system lets it go where the program ends, however it ends.
#[derive(Drop)]
pub struct CidLock {
    // None where the lock cannot be made, as where no folder can be written.
    file: Option<File>,
    /// Whose lock it is.
    pub cid: [u8; 16],
}

impl CidLock {
    /// Takes the lock, where it can be made.
    ///
    /// # Errors
    ///
    /// `Held` where another console holds it; `Memory` if an allocation failed.
    pub fn take(rt: &HostRuntime, cid: [u8; 16]) -> Result<Self, LockFault>
        ensures cid { IfOk result (λ lock. lock.cid ≡ cid) }
    {
        match locked_file(rt, cid) {
            Ok(file) => Ok(CidLock {
                file: Some(file),
                cid,
            }),
            Err(NoLock::CannotBeMade) => Ok(CidLock { file: None, cid }),
            Err(NoLock::Fault(fault)) => Err(fault),
        }
    }

    /// Whether it could be made.
    pub fn is_had(&self) -> bool {
        self.file.is_some()
    }
}

// Why the lock of a CID is not taken.
#[derive(Clone, Copy)]
enum NoLock {
    // Without it a night goes on.
    CannotBeMade,
    Fault(LockFault),
}

impl From<FileFault> for NoLock {
    fn from(fault: FileFault) -> NoLock {
        match fault {
            FileFault::System(_) => NoLock::CannotBeMade,
            FileFault::Memory => NoLock::Fault(LockFault::Memory),
        }
    }
}

impl From<Error> for NoLock {
    fn from(error: Error) -> NoLock {
        NoLock::from(FileFault::from(error))
    }
}

// The file of the lock, which is locked.
fn locked_file(rt: &HostRuntime, cid: [u8; 16]) -> Result<File, NoLock> {
    let path = OwnFolder::of_locks(rt)?.lock_path(rt, cid)?;
    let file = OpenOptions::new()
        .read(true)
        .write(true)
        .create(true)
        .open(rt, path.as_str())?;
    match AskedLock::within_a_second(rt, file.as_raw_fd()).answer() {
        FileLock::Ours => Ok(file),
        FileLock::Theirs => Err(NoLock::Fault(LockFault::Held(path))),
        FileLock::Missing => Err(NoLock::CannotBeMade),
    }
}

// The folder of the locks of CIDs, which was found to be the user's own, and no link. A lock's file
// is opened in no other.
#[derive(Clone, Copy)]
struct OwnFolder {
    path: PathText,
}

impl OwnFolder {
    // Makes it, unless it is there, and looks at it.
    fn of_locks(rt: &HostRuntime) -> Result<Self, NoLock> {
        let user = metadata(rt, "/proc/self")?.uid();
        let has_runtime = is_own(rt, &runtime_folder(user), user);
        let Some(named) = named_folder(env::var(rt, "XDG_RUNTIME_DIR"))? else {
            return Err(NoLock::CannotBeMade);
        };
        let Some(path) = lock_folder(named.as_str(), has_runtime, user) else {
            return Err(NoLock::CannotBeMade);
        };
        match create_dir(rt, path.as_str()) {
            Ok(()) => {}
            Err(error) if error.kind() == ErrorKind::AlreadyExists => {}
            Err(error) => return Err(NoLock::from(error)),
        }
        if is_own(rt, &path, user) {
            Ok(OwnFolder { path })
        } else {
            Err(NoLock::CannotBeMade)
        }
    }

    fn lock_path(&self, rt: &HostRuntime, cid: [u8; 16]) -> Result<PathText, NoLock> {
        match lock_path(rt.alloc(), &self.path, cid) {
            Ok(Some(path)) => Ok(path),
            Ok(None) => Err(NoLock::CannotBeMade),
            Err(_) => Err(NoLock::Fault(LockFault::Memory)),
        }
    }
}

// Whether a path leads to a folder of this user. A link is not followed.
fn is_own(rt: &HostRuntime, path: &PathText, user: u32) -> bool {
    let Ok(found) = symlink_metadata(rt, path.as_str()) else {
        return false;
    };
    let folder = FoundFolder {
        is_folder: found.is_dir(),
        owner: found.uid(),
    };
    folder.is_own(user)
}
