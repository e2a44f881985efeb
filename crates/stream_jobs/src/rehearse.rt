ghost use Rattle.std.specs.Prelude.{◌≡◌};
ghost use Rattle.cmd_rehearse.specs.Begins.{RehearsalBegins};
ghost use Rattle.cmd_rehearse.specs.Printed.{AreLinesOf};
ghost use Rattle.remarks.specs.Failures.{of_rehearsal};
ghost use Rattle.remarks.specs.RunEnds.{TellsOf, run_of};
ghost use Rattle.stream_jobs.specs.Rehearsals.{HandsOnAll};

use cmd_faults::RunFault;
use cmd_rehearse::rehearse_text;
use fade_core::Fader;
use job_devices::JobOutput;
use remarks::Failure;
use std::alloc::Global;

/// Rehearses a script over a show, prints the replies to its events and at the end the slots of
/// each receiver, and hands on what standard output holds back of them.
///
/// # Errors
///
/// The fault of [`rehearse_text`], and what is told of it; `Device` too where handing on failed.
pub fn rehearse_show<F: Fader, W: JobOutput>(
    alloc: Global,
    show: &[u8],
    script: &[u8],
    out: &mut W,
) -> Result<(), Failure>
    ensures told { W.tells out.new → W.tells out.old }
    ensures begins { RehearsalBegins (run_of result) show.now script.now }
    ensures text { W.tells out.new → HandsOnAll (run_of result) (W.is_handed_on out.new)
        (AreLinesOf show.now script.now) (W.tape out.old) (W.tape out.new) }
    ensures remark { TellsOf (λ fault. of_rehearsal fault show.now script.now (W.reason out.new))
        result }
{
    if let Err(fault) = print_all::<F, W>(alloc, show, script, out) {
        return Err(Failure::of_rehearsal(fault, show, script, out.failure()));
    }
    Ok(())
}

fn print_all<F: Fader, W: JobOutput>(
    alloc: Global,
    show: &[u8],
    script: &[u8],
    out: &mut W,
) -> Result<(), RunFault>
    ensures told { W.tells out.new → W.tells out.old }
    ensures begins { RehearsalBegins result show.now script.now }
    ensures text { W.tells out.new → HandsOnAll result (W.is_handed_on out.new)
        (AreLinesOf show.now script.now) (W.tape out.old) (W.tape out.new) }
{
    rehearse_text::<F, _>(alloc, show, script, out)?;
    out.flush()?;
    Ok(())
}
