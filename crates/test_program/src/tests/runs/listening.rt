use super::CID;
use cmd_faults::RunFault;
use cmd_listen::listen;
use devices::memory::{MemoryDatagrams, MemoryOutput};
use sacn_packet::{Header, SourceName, encode};
use std::alloc::Global;

// The packet of row `look_one`: its first slot is at 64.
fn look_one() -> [u8; 638] {
    let header = Header {
        cid: CID,
        name: SourceName::new("cueplayer").unwrap(),
        priority: 100,
        sequence: 0,
        options: 0,
        universe: 1,
    };
    let mut slots = [0; 512];
    slots[0] = 64;
    let mut packet = [0; 638];
    encode(&header, &slots, &mut packet);
    packet
}

// The answer of a run over so many datagrams of universe 1, and its output. Of the receives and of
// the writes some pass at first, and some then fail. Where the output could not grow,
// the run is made again.
fn end<'a>(
    alloc: Global,
    datagrams: &'a [&'a [u8]],
    count: u32,
    receives: (u64, u64),
    writes: (u64, u64),
) -> (Result<(), RunFault>, MemoryOutput) {
    for _ in 0..2 {
        let mut source = MemoryDatagrams::new(datagrams, receives.0, receives.1);
        let mut out = MemoryOutput::new(alloc, writes.0, writes.1);
        let answer = listen(&mut source, 1, count, &mut out);
        if !out.full {
            return (answer, out);
        }
    }
    (Err(RunFault::Memory), MemoryOutput::new(alloc, 0, 0))
}

const THREE: &[u8] =
    b"1 taken 0\n2 ignored OutOfSequence\n3 ignored Unreadable Short\nslots 1:64\n";

// Whether a run over so many datagrams ends well, and prints this.
fn prints(alloc: Global, datagrams: &[&[u8]], count: u32, text: &[u8]) -> bool {
    let (answer, out) = end(alloc, datagrams, count, (0, 0), (0, 0));
    answer == Ok(()) && out.bytes.as_slice() == text
}

#[test]
fn listen_three(rt: HostRuntime) {
    let look_one = look_one();
    let datagrams = [look_one.as_slice(), &look_one, &[0; 5]];
    assert!(rt; prints(rt.alloc(), datagrams.as_slice(), 3, THREE));
}

// Whether a run of row `listen_three` ends as a receive or a write fails, and has printed so many
// bytes before.
fn stops(alloc: Global, receives: (u64, u64), writes: (u64, u64), printed: &[u8]) -> bool {
    let look_one = look_one();
    let datagrams = [look_one.as_slice(), &look_one, &[0; 5]];
    let (answer, out) = end(alloc, datagrams.as_slice(), 3, receives, writes);
    answer == Err(RunFault::Device)
        && out.bytes.as_slice() == printed
        && out.faults.failed == writes.1
}

#[test]
fn each_device_of_listen_fails(rt: HostRuntime) {
    for (receives, writes, printed) in [
        ((0, 0), (0, 1), 0),
        ((0, 0), (1, 1), 10),
        ((0, 0), (2, 1), 34),
        ((0, 0), (3, 1), 61),
        ((0, 1), (0, 0), 0),
        ((1, 1), (0, 0), 10),
        ((2, 1), (0, 0), 34),
    ] {
        assert!(rt;
            stops(rt.alloc(), receives, writes, &THREE[..printed]),
            "{printed}"
        );
    }
}
