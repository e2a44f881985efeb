use cmd_explain::explain;
use cmd_faults::RunFault;
use devices::memory::MemoryOutput;
use show_reader::ShowFault;
use std::alloc::Global;
use std::process::Abort;

// The answer of a run and its output, of which so many of the first writes fail.
//
// Where the one allocation that a run lets fail failed here, the second run has all it needs.
// Without memory for the faulty lines the fault alone is answered.
fn end(alloc: Global, show: &[u8], failing: u64) -> (Result<(), RunFault>, MemoryOutput) {
    let mut out = MemoryOutput::new(alloc, 0, failing);
    let answer = explain(alloc, show, &mut out);
    let is_short = matches!(answer, Err(RunFault::Memory | RunFault::Show(_)));
    let refused = is_short && out.faults.failed == 0 || out.full;
    if !refused || !out.bytes.is_empty() {
        return (answer, out);
    }
    let mut out = MemoryOutput::new(alloc, 0, failing);
    let answer = explain(alloc, show, &mut out);
    (answer, out)
}

// A show, how many of the first writes fail, the run's answer, and what it prints.
type Row<'a> = (&'a [u8], u64, Result<(), RunFault>, &'a [u8]);

fn holds(alloc: Global, row: &Row<'_>) -> bool {
    let (show, failing, wanted, text) = *row;
    let (answer, out) = end(alloc, show, failing);
    answer == wanted && out.bytes.as_slice() == text
}

fn explain_each(rt: &impl Abort, alloc: Global, rows: &[Row<'_>]) {
    for (place, row) in rows.iter().enumerate() {
        assert!(rt; holds(alloc, row), "row {place}");
    }
}

#[test]
fn faults(rt: HostRuntime) {
    explain_each(
        &rt,
        rt.alloc(),
        &[
            (
                b"WHAT\nPATCH 1 1<1@101\n",
                0,
                Err(RunFault::Show(ShowFault::BadLevel(2))),
                b"line 2: BadLevel at `101`: PATCH 1 1<1@101\ncheck answers line 2: BadLevel\n",
            ),
            (b"WHAT\n", 1, Err(RunFault::Device), b""),
        ],
    );
}

const CUES: &[u8] = b"PATCH 1 1<1@FL\nCUE 1\nCHAN 1@FL 2@0\nCUE 1.5\nCHAN 2@FL 7@FL\nCUE 2\n\
CUE .25\nCHAN 9@1\nCUE 3.125\nCHAN 7@0\nCUE 4.070\nCHAN 7@0\n";

#[test]
fn notes(rt: HostRuntime) {
    explain_each(
        &rt,
        rt.alloc(),
        &[(
            CUES,
            0,
            Ok(()),
            b"note: cues of which no channel is patched: 0.25 1.5 3.125 4.07\n\
                    note: channels of cues that are patched nowhere: 2 7 9\n\
                    note: cues that look as the one before: 3.125 4.07\n",
        )],
    );
}
