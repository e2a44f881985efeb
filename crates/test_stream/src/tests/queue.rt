use super::memory_pipe::MemoryPipe;
use devices::memory::Faults;
use line_queue::{LineOutput, LineQueue, Notice};
use std::alloc::Global;
use std::io::ErrorKind;
use std::process::Abort;

const NOTICE: Notice = Notice {
    mark: "! ",
    lines: "lines",
};

fn queue_before(
    rt: &impl Abort,
    alloc: Global,
    room: usize,
    faults: Faults,
    kind: ErrorKind,
) -> LineQueue<MemoryPipe> {
    let pipe = MemoryPipe::new(alloc, room, 100, faults, kind);
    LineQueue::new(alloc, pipe, NOTICE).expect(rt, "a queue")
}

// A pipe that takes 100 bytes by a write gets the lines as they are.
#[test]
fn lines_go_through(rt: HostRuntime) {
    let faults = Faults::new(0, 0);
    let mut queue = queue_before(&rt, rt.alloc(), 1000, faults, ErrorKind::BrokenPipe);
    queue.put(b"0 go\n");
    queue.take(b"23 tick\n");
    assert!(rt; queue.is_late() && queue.pipe.bytes.as_slice() == b"0 go\n".as_slice());
    queue.hand_on();
    assert!(rt; !queue.is_late() && queue.pipe.bytes.as_slice() == b"0 go\n23 tick\n".as_slice());
    assert!(rt; queue.bytes_taken() == 13 && queue.gaps() == 0 && queue.pipe.writes == 2);
}

// Lines that fit are kept where the pipe takes nothing, by an output as by its queue.
#[test]
fn lines_that_fit_are_kept(rt: HostRuntime) {
    let faults = Faults::new(0, 0);
    let mut output = LineOutput::open(queue_before(&rt, rt.alloc(), 0, faults, ErrorKind::Other));
    for _ in 0..30 {
        output.put(&[b'x'; 1000]);
        output.take(&[b'y'; 1000]);
    }
    assert!(rt; output.is_late() && output.look().gaps == 0 && output.piped_bytes() == 0);
    if let Some(queue) = &mut output.queue {
        queue.pipe.room = 100_000;
    }
    output.finish();
    assert!(rt; !output.is_late() && output.look().gaps == 0 && output.piped_bytes() == 60_000);
}

// Of 70 lines of 1,000 bytes the first 65 have room in a queue of 65,536 bytes whose pipe takes
// nothing. The others are counted where they would stand, and a line behind them is kept again.
#[test]
fn dropped_lines_are_counted(rt: HostRuntime) {
    let faults = Faults::new(0, 0);
    let mut queue = queue_before(&rt, rt.alloc(), 0, faults, ErrorKind::BrokenPipe);
    for _ in 0..70 {
        queue.put(&[b'x'; 1000]);
    }
    assert!(rt; queue.is_late() && queue.pipe.bytes.is_empty() && queue.gaps() == 0);
    queue.pipe.room = 100_000;
    queue.finish();
    queue.put(b"0 go\n");
    let bytes = queue.pipe.bytes.as_slice();
    let count = bytes.iter().filter(|byte| **byte == b'x').count();
    assert!(rt; bytes.len() == 65_023 && count == 65_000);
    assert!(rt; bytes.ends_with(b"! 5 lines dropped\n0 go\n".as_slice()));
    assert!(rt; queue.gaps() == 1 && !queue.is_late());
}

// A line that is longer than the room is counted too, also where nothing waits.
#[test]
fn long_line_is_counted(rt: HostRuntime) {
    let faults = Faults::new(0, 0);
    let mut queue = queue_before(&rt, rt.alloc(), 1000, faults, ErrorKind::BrokenPipe);
    queue.put(&[b'x'; 65_537]);
    queue.put(b"0 go\n");
    assert!(rt; queue.pipe.bytes.as_slice() == b"! 1 lines dropped\n0 go\n".as_slice());
}

// A write that a signal interrupts is made again; behind one that failed nothing is written.
#[test]
fn nothing_is_written_behind_a_failure(rt: HostRuntime) {
    let signal = Faults::new(0, 1);
    let mut interrupted = queue_before(&rt, rt.alloc(), 1000, signal, ErrorKind::Interrupted);
    interrupted.put(b"0 go\n");
    assert!(rt;
        interrupted.failure().is_none() && interrupted.pipe.bytes.as_slice() == b"0 go\n".as_slice()
    );
    let fault = Faults::new(1, 1);
    let mut failed = queue_before(&rt, rt.alloc(), 1000, fault, ErrorKind::BrokenPipe);
    for _ in 0..3 {
        failed.put(b"0 go\n");
    }
    assert!(rt; failed.failure() == Some(ErrorKind::BrokenPipe));
    assert!(rt; failed.pipe.bytes.as_slice() == b"0 go\n".as_slice() && failed.pipe.writes == 2);
}

// Where memory is refused there is no queue; behind that there is one, with nothing in it.
#[test]
fn each_growth_refused(rt: HostRuntime) {
    let faults = Faults::new(0, 0);
    let pipe = MemoryPipe::new(rt.alloc(), 1000, 100, faults, ErrorKind::BrokenPipe);
    let queue = match LineQueue::new(rt.alloc(), pipe, NOTICE) {
        Ok(queue) => queue,
        Err(_) => queue_before(&rt, rt.alloc(), 1000, faults, ErrorKind::BrokenPipe),
    };
    assert!(rt; !queue.is_late() && queue.bytes_taken() == 0 && queue.gaps() == 0);
}
