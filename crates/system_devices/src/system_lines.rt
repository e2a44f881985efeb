ghost use Rattle.std.specs.Prelude.{None, ⊤};

use byte_reading::{BlockSource, ShortLine, ShortLines, read_some};
use std::fs::File;
use std::io::ErrorKind;

/// A file that the system writes when it is read, as those of its network. One that cannot be
/// opened is empty. Contracts do not see what it has.
#[derive(Drop)]
pub struct SystemFile {
    file: Option<File>,
}

impl BlockSource for SystemFile {
    ghost left = { λ _. None };

    ghost may_fail = { λ _. ⊤ };

    fn next_block(&mut self, block: &mut [u8]) -> Result<usize, ErrorKind> {
        match &mut self.file {
            Some(file) => read_some(file, block),
            None => Ok(0),
        }
    }
}

/// The lines of the file of this name.
pub fn open_lines(rt: &HostRuntime, name: &str) -> ShortLines<SystemFile> {
    let file = File::open(rt, name).ok();
    ShortLines::new(SystemFile { file })
}

/// The first line of a small file of the system.
pub fn first_line(rt: &HostRuntime, name: &str) -> Option<ShortLine> {
    open_lines(rt, name).next_line()
}
