ghost use Rattle.std.specs.Prelude.{[], false, None};

use crate::descriptor_poll::DescriptorPoll;
use crate::fault::DeviceFault;
use crate::way::{kind_of, pipe_to_writer, written_file};
use line_queue::{LineOutput, LineQueue, Notice, Pipe, WrittenFile};
use mio::Interest;
use std::fs::File;
use std::io::{ErrorKind, Result as IoResult, Write};
use std::os::fd::AsRawFd;

/// What an output is called, and what its lines are.
#[derive(Clone, Copy)]
pub struct Names {
    /// Its name in messages.
    pub output: &'static str,
    /// The variable of the environment that names the pipe to the writer of its file.
    pub pipe: &'static str,
    /// The words of the notices in the output itself.
    pub notice: Notice,
}

/// An output that holds nobody up, and may be closed: lines in front of what the system writes.
pub type BoundedOutput<W> = LineOutput<PolledWay<W>>;

/// The way of an output's bytes, into the output itself, or through a pipe to a process that writes
/// its file and may wait for the disk; and the poll that says whether it takes bytes.
#[derive(Drop)]
pub struct PolledWay<W> {
    output: W,
    pipe: Option<File>,
    poll: DescriptorPoll,
}

impl<W: AsRawFd + Drop> PolledWay<W> {
    fn open(rt: &HostRuntime, output: W, variable: &str) -> IoResult<Self> {
        let pipe = pipe_to_writer(rt, &output, variable)?;
        let descriptor = match &pipe {
            Some(pipe) => pipe.as_raw_fd(),
            None => output.as_raw_fd(),
        };
        let poll = DescriptorPoll::open(rt, descriptor, Interest::WRITABLE)?;
        Ok(PolledWay { output, pipe, poll })
    }
}

impl<W: AsRawFd> PolledWay<W> {
    /// The output's file, if another process writes it.
    pub fn written_file(&self, rt: &HostRuntime) -> Option<WrittenFile> {
        match &self.pipe {
            Some(_) => written_file(rt, &self.output),
            None => None,
        }
    }
}

impl<W: Write> Pipe for PolledWay<W> {
    ghost tells = { λ _. ⊥ };

    ghost tape = { λ _. record {
      taken = [];
      writes = 0;
      wait = 0;
      is_full = false;
      fault = None;
    } };

    fn takes_bytes(&mut self, milliseconds: u64) -> bool {
        self.poll.is_ready(milliseconds).unwrap_or(false)
    }

    fn write(&mut self, bytes: &[u8]) -> Result<usize, ErrorKind> {
        let written = match &mut self.pipe {
            Some(pipe) => pipe.write(bytes),
            None => self.output.write(bytes),
        };
        match written {
            Ok(count) => Ok(count),
            Err(error) => Err(kind_of(error)),
        }
    }
}

/// Opens an output.
///
/// # Errors
///
/// `Device` where the output cannot be asked whether it takes bytes, or the pipe to its writer
/// cannot be opened; `Memory` if an allocation failed.
pub fn open_output<W: Write + AsRawFd + Drop>(
    rt: &HostRuntime,
    output: W,
    names: Names,
) -> Result<BoundedOutput<W>, DeviceFault> {
    let pipe = PolledWay::open(rt, output, names.pipe).map_err(|error| DeviceFault::of_system(
        names.output,
        error,
    ))?;
    match LineQueue::new(rt.alloc(), pipe, names.notice) {
        Ok(queue) => Ok(LineOutput::open(queue)),
        Err(_) => Err(DeviceFault::Memory),
    }
}
