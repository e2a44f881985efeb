use devices::memory::{MemoryFeed, MemoryOutput};
use job_devices::{JobOutput, MemoryJobOutput};
use show_jobs::{check_show, list_cues};
use std::alloc::Global;
use std::io::ErrorKind;
use stream_jobs::watch_lines;

const SHOW: &[u8] = b"CUE 1\nENDDATA\n";

const COUNTS: &[u8] = b"lines 2 cues 1 subs 0 groups 0 dimmers 0 skipped 0\n";

// Standard output, whose call of this number fails, from 1.
fn output(alloc: Global, failing: u64) -> MemoryJobOutput {
    MemoryJobOutput::new(MemoryOutput::new(alloc, 0, failing), ErrorKind::BrokenPipe)
}

#[test]
fn a_check_prints_its_counts(rt: HostRuntime) {
    let mut out = output(rt.alloc(), 0);
    let remark = check_show(rt.alloc(), SHOW, false, &mut out);
    assert!(rt; remark.is_ok_and(|remark| remark.is_empty()));
    assert!(rt; out.output.bytes.as_slice() == COUNTS);
}

#[test]
fn an_output_that_fails_ends_a_job(rt: HostRuntime) {
    let mut out = output(rt.alloc(), 1);
    assert!(rt; list_cues(rt.alloc(), SHOW, false, &mut out).is_err());
    assert!(rt; out.failure() == Some(ErrorKind::BrokenPipe));
}

#[test]
fn nothing_is_watched_of_no_input(rt: HostRuntime) {
    let mut out = output(rt.alloc(), 0);
    let mut input = MemoryFeed::new(b"", 1, 0, 0);
    assert!(rt; watch_lines(rt.alloc(), &mut input, &[1], &mut out).is_ok());
}
