use super::end;
use super::rows::{BASIC, first_lines};
use cmd_faults::RunFault;
use std::alloc::Global;

// Whether a write of row `rehearse_basic` fails after so many: the output has the lines before it.
fn fails(alloc: Global, passing: u64) -> bool {
    let (answer, out) = end(alloc, BASIC, (passing, 1));
    answer == Err(RunFault::Device)
        && out.bytes.as_slice() == first_lines(passing)
        && out.faults.failed == 1
}

#[test]
fn each_device_fails(rt: HostRuntime) {
    for passing in 0u64..13 {
        assert!(rt; fails(rt.alloc(), passing), "write {passing}");
    }
}
