use crate::bounded_output::BoundedOutput;
use line_queue::{GivenBytes, WrittenFile, WrittenFiles, owed_by_outputs};
use std::os::fd::AsRawFd;
use std::thread::sleep;
use std::time::Duration;

// At the end of a night writers are waited for so many milliseconds.
const PATIENCE: u32 = 2000;

/// The files of two outputs, each if another process writes it.
pub fn written_files<A: AsRawFd, B: AsRawFd>(
    rt: &HostRuntime,
    output: &BoundedOutput<A>,
    error: &BoundedOutput<B>,
) -> WrittenFiles {
    WrittenFiles {
        output: file_of(rt, output),
        error: file_of(rt, error),
    }
}

fn file_of<W: AsRawFd>(rt: &HostRuntime, output: &BoundedOutput<W>) -> Option<WrittenFile> {
    match &output.queue {
        Some(queue) => queue.pipe.written_file(rt),
        None => None,
    }
}

/// Waits until the writers of two outputs have written what they were given, two seconds at most,
/// by the files of these before. Returns how many bytes they still owe.
pub fn wait_for_writers<A: AsRawFd, B: AsRawFd>(
    rt: &HostRuntime,
    output: &BoundedOutput<A>,
    error: &BoundedOutput<B>,
    before: WrittenFiles,
) -> u64 {
    let given = GivenBytes {
        output: output.piped_bytes(),
        error: error.piped_bytes(),
    };
    for _ in 0..PATIENCE {
        if owed_by_outputs(before, given, written_files(rt, output, error)) == 0 {
            return 0;
        }
        sleep(rt, Duration::from_millis(1));
    }
    owed_by_outputs(before, given, written_files(rt, output, error))
}
