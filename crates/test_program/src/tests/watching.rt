use cmd_faults::RunFault;
use cmd_listen::watch;
use devices::memory::{MemoryFeed, MemoryOutput};
use sacn_packet::{Header, SourceName, encode};
use std::alloc::{AllocError, Global};

// The packet of a desk on universe 1: its first slot is at 128.
fn of_desk() -> [u8; 638] {
    let header = Header {
        cid: [7; 16],
        name: SourceName::new("desk").unwrap(),
        priority: 100,
        sequence: 0,
        options: 0,
        universe: 1,
    };
    let mut slots = [0; 512];
    slots[0] = 128;
    let mut packet = [0; 638];
    encode(&header, &slots, &mut packet);
    packet
}

// The packet at moment 5, a datagram that is none, and the clock until the desk is silent.
fn evening(alloc: Global) -> Result<Vec<u8>, AllocError> {
    let mut lines = Vec::new(alloc);
    lines.extend_from_slice(b"5 ")?;
    lines.extend_from_slice(hex::encode(alloc, of_desk())?.as_bytes())?;
    lines.extend_from_slice(b"\n6 00\n105\n104\n2505")?;
    Ok(lines)
}

const TOLD: &[u8] = b"5 1 source desk 07070707-0707-0707-0707-070707070707 priority 100\n\
5 1 leads desk 07070707-0707-0707-0707-070707070707\n\
105 1 slots 1:128\n\
2505 0 ignored Backwards 1\n\
2505 0 ignored Unreadable Short 1\n\
2505 1 gone desk 07070707-0707-0707-0707-070707070707\n\
2505 1 slots\n";

// The answer of a watch of universes 1 and 2, and its output. Of the reads and of the writes some
// pass at first, and one then fails. Where the output could not grow, it is made again.
fn end(
    alloc: Global,
    input: &[u8],
    reads: (u64, u64),
    writes: (u64, u64),
) -> (Result<(), RunFault>, MemoryOutput) {
    for _ in 0..2 {
        let mut feed = MemoryFeed::new(input, 4096, reads.0, reads.1);
        let mut out = MemoryOutput::new(alloc, writes.0, writes.1);
        let answer = watch(alloc, &mut feed, &[1, 2], &mut out);
        if answer != Err(RunFault::Memory) && !out.full {
            return (answer, out);
        }
    }
    (Err(RunFault::Memory), MemoryOutput::new(alloc, 0, 0))
}

#[test]
fn watch_desk(rt: HostRuntime) -> Result<(), AllocError> {
    let evening = evening(rt.alloc())?;
    let (answer, out) = end(rt.alloc(), evening.as_slice(), (0, 0), (0, 0));
    assert!(rt; answer == Ok(()) && out.bytes.as_slice() == TOLD);
    Ok(())
}

// Whether a watch ends so, and has printed so many bytes before.
fn stops(
    alloc: Global,
    input: &[u8],
    faults: ((u64, u64), (u64, u64)),
    fault: RunFault,
    printed: usize,
) -> bool {
    let (answer, out) = end(alloc, input, faults.0, faults.1);
    answer == Err(fault) && out.bytes.len() == printed
}

#[test]
fn each_device_of_watch_fails(rt: HostRuntime) -> Result<(), AllocError> {
    let evening = evening(rt.alloc())?;
    for (reads, writes, printed) in [
        ((0, 1), (0, 0), 0),
        ((1, 1), (0, 0), 136),
        ((0, 0), (0, 1), 0),
        ((0, 0), (1, 1), 118),
        ((0, 0), (2, 1), 136),
    ] {
        let faults = (reads, writes);
        assert!(rt;
            stops(
                rt.alloc(),
                evening.as_slice(),
                faults,
                RunFault::Device,
                printed
            )
        );
    }
    Ok(())
}

#[test]
fn lines_that_are_none(rt: HostRuntime) {
    for (input, line) in [
        (b"0\nx\n".as_slice(), 2),
        (b"0 0\n", 1),
        (b"0 00 00\n", 1),
        (b"1000 ! the clock\n\n0x00\n", 3),
    ] {
        let none = ((0, 0), (0, 0));
        assert!(rt; stops(rt.alloc(), input, none, RunFault::Line(line), 0));
    }
}
