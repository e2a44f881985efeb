mod listening;

use cmd_faults::RunFault;
use cmd_show::{check, look, slots};
use devices::memory::MemoryOutput;
use std::alloc::Global;

const CID: [u8; 16] = [
    0xc0, 0xff, 0xee, 0x00, 0x00, 0x00, 0x40, 0x00, 0x80, 0x00, 0x00, 0x00, 0x00, 0x00, 0xe1, 0x31,
];

const ONE_LAMP: &[u8] = b"IDENT 3:0\nCUE 1\nCHAN 1@H80\nPATCH 1 1<1@H80\nENDDATA\n";

#[derive(Clone, Copy)]
enum Call {
    Check,
    Look,
    Slots,
}

fn run(alloc: Global, call: Call, out: &mut MemoryOutput) -> Result<(), RunFault> {
    match call {
        Call::Check => check(alloc, ONE_LAMP, out),
        Call::Look => look(alloc, ONE_LAMP, 1000, CID, out),
        Call::Slots => slots(alloc, ONE_LAMP, 1000, 1, out),
    }
}

// The answer of a run and its output, of which so many of the first writes fail.
//
// If an allocation failed, the answer is Memory with nothing written, and the run after it has
// all memory. So it is where the output itself could not grow.
fn end(alloc: Global, call: Call, failing: u64) -> (Result<(), RunFault>, MemoryOutput) {
    let mut out = MemoryOutput::new(alloc, 0, failing);
    let answer = run(alloc, call, &mut out);
    let refused = answer == Err(RunFault::Memory) && out.faults.failed == 0 || out.full;
    if !refused || !out.bytes.is_empty() {
        return (answer, out);
    }
    let mut out = MemoryOutput::new(alloc, 0, failing);
    let answer = run(alloc, call, &mut out);
    (answer, out)
}

// Whether a run ends well, and prints so many bytes, of which these are the first.
fn prints(alloc: Global, call: Call, count: usize, first: &[u8]) -> bool {
    let (answer, out) = end(alloc, call, 0);
    answer == Ok(()) && out.bytes.len() == count && out.bytes.starts_with(first)
}

#[test]
fn look_one(rt: HostRuntime) {
    for (call, count, first) in &[
        (
            Call::Check,
            51,
            b"lines 5 cues 1 subs 0 groups 0 dimmers 1 skipped 0\n".as_slice(),
        ),
        (Call::Look, 1277, b"001000004153432d45312e3137000000726e"),
        (Call::Slots, 22, b"universe 1\nslots 1:64\n"),
    ] {
        assert!(rt; prints(rt.alloc(), *call, *count, first), "{count} bytes");
    }
}

// Whether a run whose first write fails answers that, and prints nothing.
fn fails(alloc: Global, call: Call) -> bool {
    let (answer, out) = end(alloc, call, 1);
    answer == Err(RunFault::Device) && out.bytes.is_empty() && out.faults.failed == 1
}

#[test]
fn each_device_fails(rt: HostRuntime) {
    for call in [Call::Check, Call::Look, Call::Slots] {
        assert!(rt; fails(rt.alloc(), call));
    }
}
