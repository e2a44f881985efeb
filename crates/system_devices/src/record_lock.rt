use crate::way::kind_of;
use night_files::{FileLock, FileNode, lock_descriptor};
use std::env;
use std::fs::{File, Metadata, metadata};
use std::io::Error;
use std::os::fd::{AsRawFd, RawFd};
use std::os::unix::fs::MetadataExt;
use std::thread::sleep;
use std::time::Duration;

// A console that ended, or that was ended, has let its lock go within so many times.
const MOST_TIMES: u32 = 100;

// What passes between two of them, in milliseconds.
const WAIT: u64 = 10;

// Names the descriptor of the record's file that this program and the writer of the file were
// started with: one open file, whose lock lasts until the program and the writer have ended. So a
// night that goes on in the file begins behind the last line of the one that was killed.
const SHARED: &str = "CUEPLAYER_RECORD_FILE";

/// The lock of a file, as it was asked for. Nothing else makes one.
#[derive(Clone, Copy)]
pub struct AskedLock {
    answer: FileLock,
}

impl AskedLock {
    /// Asks for the lock of a file, by its descriptor.
    pub fn at_once(descriptor: RawFd) -> Self {
        let given = libc::flock(descriptor, libc::LOCK_EX | libc::LOCK_NB);
        let reason = kind_of(Error::from_raw_os_error(os::errno()));
        AskedLock {
            answer: FileLock::of_request(given == 0, reason),
        }
    }

    /// Asks for it 100 times at most, with 10 ms behind each time at which another process held it.
    pub fn within_a_second(rt: &HostRuntime, descriptor: RawFd) -> Self {
        for _ in 0..MOST_TIMES {
            let lock = AskedLock::at_once(descriptor);
            if lock.answer != FileLock::Theirs {
                return lock;
            }
            sleep(rt, Duration::from_millis(WAIT));
        }
        AskedLock {
            answer: FileLock::Theirs,
        }
    }

    /// Whose it is.
    pub fn answer(self) -> FileLock {
        self.answer
    }
}

/// The descriptor by which the lock of a record's file is asked for: the one that is shared with
/// its writer, if one is.
pub fn record_descriptor(rt: &HostRuntime, file: &File) -> RawFd {
    let Ok(name) = env::var(rt, SHARED) else {
        return file.as_raw_fd();
    };
    let own = file.metadata().ok().map(|found| node_of(&found));
    let named = metadata(rt, name.as_str())
        .ok()
        .map(|found| node_of(&found));
    lock_descriptor(file.as_raw_fd(), own, named, name.as_str())
}

/// Which file it is.
pub fn node_of(found: &Metadata) -> FileNode {
    FileNode {
        device: found.dev(),
        inode: found.ino(),
    }
}

/// Whether two names or descriptors lead to one file.
pub fn is_same(left: &Metadata, right: &Metadata) -> bool {
    node_of(left).is_same(node_of(right))
}
