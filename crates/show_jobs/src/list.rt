ghost use Rattle.cmd_explain.specs.Explanation.{Explains};
ghost use Rattle.cmd_show.specs.Faults.{CheckFails, ReadsFirst};
ghost use Rattle.cmd_show.specs.Prints.{PrintsTo};
ghost use Rattle.remarks.specs.Failures.{of_run};
ghost use Rattle.remarks.specs.RunEnds.{TellsOf, run_of};
ghost use Rattle.show_jobs.specs.Lists.{IsCueList};

use cmd_cues::{cues, cues_json};
use cmd_explain::explain;
use cmd_faults::RunFault;
use devices::Output;
use job_devices::JobOutput;
use remarks::{Failure, run_end};
use std::alloc::Global;

/// Prints notes for the author of a show, and why lines of its text are skipped.
///
/// # Errors
///
/// The fault of [`explain`], and what is told of it.
pub fn explain_show<W: JobOutput>(alloc: Global, show: &[u8], out: &mut W) -> Result<(), Failure>
    ensures told { W.tells out.new → W.tells out.old }
    ensures text { W.tells out.new
        → Explains show.now (run_of result) (W.tape out.old) (W.tape out.new) }
    ensures reads { ReadsFirst show.now (CheckFails show.now) (run_of result) }
    ensures remark { TellsOf (λ fault. of_run fault show.now (W.reason out.new)) result }
{
    let answer = explain(alloc, show, out);
    run_end(answer, show, out.failure())
}

/// Prints the cue list of a show, as JSON or as a table.
///
/// # Errors
///
/// The fault of [`cues`], and what is told of it.
pub fn list_cues<W: JobOutput>(
    alloc: Global,
    show: &[u8],
    is_json: bool,
    out: &mut W,
) -> Result<(), Failure>
    ensures prints { PrintsTo W.tells W.tape out.old out.new (run_of result)
        (IsCueList is_json show.now) }
    ensures reads { ReadsFirst show.now (CheckFails show.now) (run_of result) }
    ensures remark { TellsOf (λ fault. of_run fault show.now (W.reason out.new)) result }
{
    let answer = print_list(alloc, show, is_json, out);
    run_end(answer, show, out.failure())
}

fn print_list<W: Output>(
    alloc: Global,
    show: &[u8],
    is_json: bool,
    out: &mut W,
) -> Result<(), RunFault>
    ensures prints { PrintsTo W.tells W.tape out.old out.new result (IsCueList is_json show.now) }
    ensures reads { ReadsFirst show.now (CheckFails show.now) result }
{
    if is_json {
        cues_json(alloc, show, out)
    } else {
        cues(alloc, show, out)
    }
}
