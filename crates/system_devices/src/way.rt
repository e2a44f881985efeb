use arrayvec::ArrayString;
use line_queue::WrittenFile;
use std::env;
use std::env::VarError;
use std::fmt::Write as _;
use std::fs::{File, Metadata, OpenOptions, metadata};
use std::io::{Error, ErrorKind, Result as IoResult};
use std::os::fd::AsRawFd;
use std::os::unix::fs::MetadataExt;

/// What the system knows of the file of an output.
pub fn written_file<W: AsRawFd>(rt: &HostRuntime, output: &W) -> Option<WrittenFile> {
    let file = metadata_of(rt, output).ok()?;
    Some(WrittenFile {
        device: file.dev(),
        number: file.ino(),
        length: file.len(),
    })
}

/// Opens the pipe to a process that writes the file of an output, where this variable of the
/// environment names one and the output is a regular file.
///
/// # Errors
///
/// The system's, where the pipe cannot be opened; `OutOfMemory` if an allocation failed.
pub fn pipe_to_writer<W: AsRawFd>(
    rt: &HostRuntime,
    output: &W,
    variable: &str,
) -> Result<Option<File>, ErrorKind> {
    let name = match env::var(rt, variable) {
        Ok(name) => name,
        Err(VarError::OutOfMemory) => return Err(ErrorKind::OutOfMemory),
        Err(_) => return Ok(None),
    };
    let found = metadata_of(rt, output).map_err(kind_of)?;
    if !found.is_file() {
        return Ok(None);
    }
    let both_ways = PipeBothWays::open(rt, name.as_str())?;
    Ok(Some(both_ways.open_to_write(rt, name.as_str())?))
}

// A pipe that is open to read and to write, which waits for nobody.
#[derive(Drop)]
struct PipeBothWays {
    pipe: File,
}

impl PipeBothWays {
    fn open(rt: &HostRuntime, name: &str) -> Result<Self, ErrorKind> {
        let pipe = OpenOptions::new()
            .read(true)
            .write(true)
            .open(rt, name)
            .map_err(kind_of)?;
        Ok(PipeBothWays { pipe })
    }

    // Opens it to write alone, while it is open both ways: so this waits for no reader, and writes
    // fail once the reader has gone.
    fn open_to_write(&self, rt: &HostRuntime, name: &str) -> Result<File, ErrorKind> {
        OpenOptions::new()
            .write(true)
            .open(rt, name)
            .map_err(kind_of)
    }
}

/// Why the system failed.
pub fn kind_of(error: Error) -> ErrorKind {
    error.kind()
}

// What the system knows of an open file, by its descriptor.
fn metadata_of<F: AsRawFd>(rt: &HostRuntime, file: &F) -> IoResult<Metadata> {
    let mut path = ArrayString::<32>::new();
    let _ = write!(path, "/dev/fd/{}", file.as_raw_fd());
    metadata(rt, path.as_str())
}
