mod devices_fail;
mod rows;

use cmd_faults::RunFault;
use cmd_rehearse::rehearse_text;
use devices::memory::MemoryOutput;
use fade_core::PlainFader;
use std::alloc::Global;

// Two cues, a submaster at half, and dimmers 1 and 2.
const SMALL: &[u8] = b"IDENT 3:0\nCUE 1\nUP 5\nCHAN 1@FL\nCUE 2\nUP 2\nDOWN 4\nCHAN 2@FL\n\
SUB 1\nCHAN 1@50\nPATCH 1 1<1@FL 2<2@FL\nENDDATA\n";

// The answer of a rehearsal over that show and its output, of whose writes some pass at first and
// some then fail.
//
// If an allocation failed, the answer is Memory with nothing written, and the run after it has
// all memory. So it is where the output itself could not grow.
fn end(alloc: Global, script: &[u8], writes: (u64, u64)) -> (Result<(), RunFault>, MemoryOutput) {
    let mut out = MemoryOutput::new(alloc, writes.0, writes.1);
    let answer = rehearse_text::<PlainFader, _>(alloc, SMALL, script, &mut out);
    let unprinted = answer == Err(RunFault::Memory) && out.bytes.is_empty();
    if !unprinted && !out.full {
        return (answer, out);
    }
    let mut out = MemoryOutput::new(alloc, writes.0, writes.1);
    let answer = rehearse_text::<PlainFader, _>(alloc, SMALL, script, &mut out);
    (answer, out)
}
