//! The files of a night: which process has a lock, where the lock of a CID lies, what the request
//! for a lock means, which files a record is kept in, when such a file is cut or removed, and what a
//! failure means. Nothing here opens a file.
//!
//! ```
//! let access = RecordUse::Begin.access_to(is_fifo);
//! let refusal = RecordUse::Begin.refusal_of(found.is_regular, found.length);
//! let lock = FileLock::of_request(is_given, reason);
//! ```
#![tactic(auto)]

mod cid_lock;
mod fault;
mod file_lock;
mod file_node;
mod lock_list;
mod lock_place;
mod record_use;

pub use cid_lock::{FoundFolder, LockFault};
pub use fault::{DeviceFault, FileFault, RecordFault};
pub use file_lock::FileLock;
pub use file_node::{FileNode, FoundFile, lock_descriptor};
pub use lock_list::process_in_list;
pub use lock_place::{PathText, lock_folder, lock_path, named_folder, runtime_folder};
pub use record_use::{
    FileAccess, RecordRefusal, RecordUse, is_cut_due, is_unused, kept_length, lock_to_take_over,
    unused_record,
};
