ghost use Rattle.std.specs.Prelude.{◌≡◌};
ghost use Rattle.night_files.specs.FileNodes.{descriptor_or, is_same_file, lock_descriptor};

use crate::lock_list::descriptor_in;

/// Which file it is: by the number of its device, and by its own there.
#[derive(Clone, Copy, Debug, PartialEq, Eq)]
pub struct FileNode {
    pub device: u64,
    pub inode: u64,
}

impl FileNode {
    /// Whether it is that file.
    pub fn is_same(self, other: FileNode) -> bool
        ensures { result ≡ is_same_file self other }
    {
        self.device == other.device && self.inode == other.inode
    }
}

/// What an open file is.
#[derive(Clone, Copy, Debug, PartialEq, Eq)]
pub struct FoundFile {
    pub node: FileNode,
    pub is_regular: bool,
    /// So many bytes stand in it.
    pub length: u64,
}

/// The descriptor by which the lock of a record's file is asked for: the one that a name spells,
/// as `/dev/fd/3`, where that name leads to the same file; else the file's own.
pub fn lock_descriptor(own: i32, node: Option<FileNode>, named: Option<FileNode>, name: &str) -> i32
    ensures { result ≡ lock_descriptor own node named name.now }
{
    match (node, named) {
        (Some(node), Some(named)) if node.is_same(named) => {
            descriptor_or(own, descriptor_in(name.as_bytes()))
        }
        _ => own,
    }
}

fn descriptor_or(own: i32, number: Option<u32>) -> i32
    ensures { result ≡ descriptor_or own number }
{
    match number {
        Some(number) => i32::try_from(number).unwrap_or(own),
        None => own,
    }
}
