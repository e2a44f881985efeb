use night_files::{
    FileLock, FileNode, FoundFolder, RecordFault, RecordRefusal, RecordUse, is_unused,
    lock_descriptor, lock_folder, lock_path, lock_to_take_over, process_in_list,
};
use std::io::ErrorKind;

// As the system lists them.
const LOCKS: &[u8] = b"1: POSIX  ADVISORY  WRITE 7 fe:00:5325926 0 EOF\n\
    2: FLOCK  ADVISORY  WRITE 1921 fe:00:5325926 0 EOF\n";

const NODE: FileNode = FileNode {
    device: 0xfe00,
    inode: 5_325_926,
};

const OTHER: FileNode = FileNode {
    device: 0xfe01,
    inode: 5_325_926,
};

#[test]
fn the_process_that_has_a_lock_is_found(rt: HostRuntime) {
    let found = process_in_list(rt.alloc(), LOCKS, NODE).expect(&rt, "memory");
    assert!(rt; found == Some(1921));
    let found = process_in_list(rt.alloc(), LOCKS, OTHER).expect(&rt, "memory");
    assert!(rt; found.is_none());
}

#[test]
fn the_lock_of_a_cid_lies_in_its_folder(rt: HostRuntime) {
    let folder = lock_folder("", true, 1000).unwrap_or_default();
    assert!(rt; folder.as_str() == "/run/user/1000/cueplayer");
    let found = lock_path(rt.alloc(), &folder, [0xc0; 16]).expect(&rt, "memory");
    let path = "/run/user/1000/cueplayer/c0c0c0c0c0c0c0c0c0c0c0c0c0c0c0c0.lock";
    assert!(rt; found.is_some_and(|found| found.as_str() == path));
    let shared = lock_folder("", false, 7).unwrap_or_default();
    assert!(rt; shared.as_str() == "/tmp/cueplayer-7");
    let is_folder = true;
    assert!(rt;
        FoundFolder {
            is_folder,
            owner: 7
        }
        .is_own(7)
    );
    assert!(rt;
        !FoundFolder {
            is_folder,
            owner: 8
        }
        .is_own(7)
    );
}

#[test]
fn a_lock_is_asked_for_by_the_shared_descriptor(rt: HostRuntime) {
    assert!(rt; lock_descriptor(5, Some(NODE), Some(NODE), "/dev/fd/3") == 3);
    assert!(rt; lock_descriptor(5, Some(NODE), Some(OTHER), "/dev/fd/3") == 5);
    assert!(rt; FileLock::of_request(false, ErrorKind::Interrupted) == FileLock::Theirs);
    assert!(rt; FileLock::of_request(false, ErrorKind::Unsupported) == FileLock::Missing);
}

#[test]
fn a_record_is_kept_in_a_file_that_fits(rt: HostRuntime) {
    assert!(rt; RecordUse::Begin.refusal_of(true, 1) == Some(RecordRefusal::NotEmpty));
    assert!(rt; RecordUse::Resume.refusal_of(true, 1).is_none());
    let renamed = RecordUse::Resume.refusal_once_locked(false, true, 1);
    assert!(rt; renamed == Some(RecordRefusal::OtherName));
    let fault = renamed.map(RecordFault::from);
    assert!(rt; fault == Some(RecordFault::File(ErrorKind::NotFound)));
    assert!(rt; is_unused(FileLock::Ours, Some(0)) && !is_unused(FileLock::Missing, Some(0)));
    assert!(rt; lock_to_take_over(FileLock::Theirs) == Ok(false));
}
