ghost use Rattle.std.specs.Prelude.{◌≤◌, All};
ghost use Rattle.cmd_listen.specs.Runs.{Watches};

use crate::fault::WatchFault;
use crate::stage::Stage;
use crate::watching::Watching;
use arrayvec::ArrayVec;
use cmd_faults::RunFault;
use devices::{Feed, Output};
use std::alloc::Global;

/// Watches universes, 1 to 63,999 each, by the lines of an input: a moment in milliseconds and a
/// datagram in hex, or a moment alone. Prints at each line what changes, by one write, before the
/// next line is read; at the end of the input the counts and the slots are told once more.
///
/// What is told of a line takes memory until it is printed, and a universe as much as four sources
/// need. Nothing grows with the lines.
///
/// # Errors
///
/// `Line` of the first line that is malformed or longer than 3,072 bytes, or of line
/// 4,000,000,001; `Device` where a read or a write failed; `Memory` if an allocation failed.
pub fn watch<R: Feed, W: Output>(
    alloc: Global,
    input: &mut R,
    universes: &[u16],
    out: &mut W,
) -> Result<(), RunFault>
    requires { All (λ u. (1 ≤ u) × (u ≤ 63999)) universes.now }
    ensures told_input { R.tells input.new → R.tells input.old }
    ensures told_output { W.tells out.new → W.tells out.old }
    ensures watches { R.tells input.new → W.tells out.new
        → Watches universes.now result (R.ended input.new) (R.tape input.old)
        (R.tape input.new) (W.tape out.old) (W.tape out.new) }
{
    let watching = Watching::new(alloc, universes)?;
    let mut stage = Stage {
        alloc,
        watching,
        pending: ArrayVec::new(),
        number: 0,
    };
    match stage.take_input(input, out) {
        Ok(()) => Ok(()),
        Err(WatchFault::Line(line)) => Err(RunFault::Line(line)),
        Err(WatchFault::Device) => Err(RunFault::Device),
        Err(WatchFault::Memory) => Err(RunFault::Memory),
    }
}
