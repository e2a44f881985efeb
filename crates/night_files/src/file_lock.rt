ghost use Rattle.std.specs.Prelude.{◌≡◌};
ghost use Rattle.night_files.specs.FileLocks.{requested_lock};

use std::io::ErrorKind;

/// The lock of a file.
#[derive(Clone, Copy, Debug, PartialEq, Eq)]
pub enum FileLock {
    /// It is held until this program, and whoever writes the file for it, have ended.
    Ours,
    /// Another process holds it.
    Theirs,
    /// The file system has none.
    Missing,
}

impl FileLock {
    /// Returns what it means how the system answers the request for a lock: that it is given, or
    /// else this reason. A request that a signal interrupts counts as one for a lock that another
    /// process holds, so that it is made again.
    pub fn of_request(is_given: bool, reason: ErrorKind) -> Self
        ensures { result ≡ requested_lock is_given reason }
    {
        if is_given {
            return FileLock::Ours;
        }
        match reason {
            ErrorKind::WouldBlock | ErrorKind::Interrupted => FileLock::Theirs,
            _ => FileLock::Missing,
        }
    }
}
