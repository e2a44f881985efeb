ghost use Rattle.cmd_rehearse.specs.Begins.{RehearsalBegins};
ghost use Rattle.cmd_rehearse.specs.Printed.{AreLinesOf, PrintsAll};

use crate::lines::print_lines;
use crate::night::rehearse_script;
use cmd_faults::RunFault;
use devices::Output;
use fade_core::Fader;
use std::alloc::Global;

/// Rehearses a script over a show, and prints the replies to its events, each behind the number of
/// its line, and at the end the slots of each receiver.
///
/// All of the script is rehearsed before anything is printed, and each line goes out by one write.
///
/// # Errors
///
/// `Show` with the show's fault; `Script` where the script has more than [`LONGEST_SCRIPT`] bytes;
/// `Line` of its first malformed line; `Setup` with the first fault of its consoles and receivers:
/// of these the first that applies. `Memory`, if an allocation failed, may come in place of a
/// later one. Then nothing is printed. `Device` where a write failed.
///
/// [`LONGEST_SCRIPT`]: crate::LONGEST_SCRIPT
pub fn rehearse_text<F: Fader, W: Output>(
    alloc: Global,
    show: &[u8],
    script: &[u8],
    out: &mut W,
) -> Result<(), RunFault>
    ensures told { W.tells out.new → W.tells out.old }
    ensures begins { RehearsalBegins result show.now script.now }
    ensures text { W.tells out.new → PrintsAll result (AreLinesOf show.now script.now)
        (W.tape out.old) (W.tape out.new) }
{
    let rehearsed = rehearse_script::<F>(alloc, show, script)?;
    print_lines(rehearsed.numbers.as_slice(), &rehearsed.report, out)?;
    Ok(())
}
