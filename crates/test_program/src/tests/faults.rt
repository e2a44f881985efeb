use cmd_faults::{RunFault, exit_status};
use devices::memory::MemoryOutput;
use rehearsal_faults::Fault;
use show_reader::ShowFault;
use std::alloc::Global;
use std::process::Abort;

// A report's status and text, told by an output that kept all of it.
fn report(alloc: Global, answer: &Result<(), RunFault>) -> (u8, MemoryOutput) {
    let mut err = MemoryOutput::new(alloc, 0, 0);
    let status = exit_status(answer, &mut err);
    if !err.full {
        return (status, err);
    }
    let mut err = MemoryOutput::new(alloc, 0, 0);
    let status = exit_status(answer, &mut err);
    (status, err)
}

// An answer, its status, and its text.
type Row<'a> = (Result<(), RunFault>, u8, &'a str);

// Whether the report of an answer has this status and text, and the same status where it cannot be
// written.
fn is_told(alloc: Global, row: &Row<'_>) -> bool {
    let (answer, wanted, text) = row;
    let (status, err) = report(alloc, answer);
    let mut failing = MemoryOutput::new(alloc, 0, 1);
    let untold_status = exit_status(answer, &mut failing);
    status == *wanted
        && err.bytes.as_slice() == text.as_bytes()
        && untold_status == *wanted
        && failing.bytes.is_empty()
}

fn tell_each(rt: &impl Abort, alloc: Global, rows: &[Row<'_>]) {
    for row in rows {
        assert!(rt; is_told(alloc, row), "{}", row.2);
    }
}

#[test]
fn statuses(rt: HostRuntime) {
    tell_each(
        &rt,
        rt.alloc(),
        &[
            (Ok(()), 0, ""),
            (
                Err(RunFault::Show(ShowFault::TooLong)),
                3,
                "show: TooLong\n",
            ),
            (
                Err(RunFault::Show(ShowFault::MissingNumber(4_294_967_295))),
                3,
                "show line 4294967295: MissingNumber\n",
            ),
            (Err(RunFault::Show(ShowFault::Memory)), 6, "memory\n"),
            (Err(RunFault::NoCue), 3, "show: NoCue\n"),
            (Err(RunFault::Base), 2, "base: Universe\n"),
            (Err(RunFault::Line(2)), 4, "line 2 refused\n"),
            (Err(RunFault::Script), 4, "script: TooLong\n"),
            (
                Err(RunFault::Setup(Fault::Consoles)),
                4,
                "setup: Consoles\n",
            ),
            (Err(RunFault::Setup(Fault::NoShow)), 4, "setup: NoShow\n"),
            (Err(RunFault::Setup(Fault::Memory)), 6, "memory\n"),
            (Err(RunFault::Device), 5, "device fault\n"),
            (Err(RunFault::Lost(1)), 5, "lost 1\n"),
            (Err(RunFault::Memory), 6, "memory\n"),
        ],
    );
}
