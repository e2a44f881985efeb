use devices::memory::{MemoryLink, MemoryOutput};
use devices::{Link, Output};

// Only a failed allocation ends what they tell.
#[test]
fn devices_go_on_telling(rt: HostRuntime) {
    let mut link = MemoryLink::new(rt.alloc(), 1, 1);
    let mut out = MemoryOutput::new(rt.alloc(), 2, 1);
    for _ in 0..2000 {
        let _ = link.send(1, b"packet");
        let _ = out.write(b"line\n");
    }
    assert!(rt; !link.full && link.sends.len() == 2000 && link.faults.failed == 1);
    assert!(rt; !out.full && out.bytes.len() == 9995 && out.faults.failed == 1);
}
