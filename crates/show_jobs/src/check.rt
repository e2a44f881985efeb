ghost use Rattle.std.specs.Prelude.{◌≡◌, ◌<◌, ◌^◌, Err, IfErr, IfOk, OnOk, length};
ghost use Rattle.show_line.specs.Said.{desk_limits};
ghost use Rattle.show_reader.specs.ItsShow.{OfItsShow};
ghost use Rattle.show_reader.specs.Reading.{lines_read, longest_text};
ghost use Rattle.show_reader.specs.declared.fault.ShowFault.TheVariants as show_fault;
ghost use Rattle.cmd_explain.specs.Weights.{IsWeightOf};
ghost use Rattle.cmd_show.specs.Faults.{CheckFails, ReadFails, ReadsFirst};
ghost use Rattle.cmd_show.specs.Prints.{IsCheckOf, PrintsTo};
ghost use Rattle.remarks.specs.Failures.{of_run};
ghost use Rattle.remarks.specs.RunEnds.{TellsOf, run_of};
ghost use Rattle.show_jobs.specs.Checks.{IsCheckEnd};
ghost use Rattle.show_jobs.specs.JobRuns.{TellsOfRun, end_of, run_of_job};
ghost use Rattle.show_jobs.specs.Seemings.{IsSeemingRemark};

use crate::seeming::seeming_remark;
use cmd_explain::{Weight, weigh};
use cmd_faults::RunFault;
use cmd_show::check;
use job_devices::JobOutput;
use remarks::{Failure, JobFault, Remark, run_end, strict_end};
use show_reader::read_show;
use std::alloc::Global;

/// Checks a show: prints its counts, and remarks what its file seems to be, where that is no show.
/// A strict check weighs the show before anything is printed, and ends as its weight has it.
///
/// # Errors
///
/// `Run` with the fault of [`check`], and what is told of it; `Doubts` where a strict check has
/// some.
#[tactic(auto, using(crate::proofs::Checks::strict_end, crate::proofs::Checks::strict_run, crate::proofs::Checks::strict_remark))]
pub fn check_show<W: JobOutput>(
    alloc: Global,
    show: &[u8],
    is_strict: bool,
    out: &mut W,
) -> Result<Remark, JobFault>
    requires { length show.now < 2 ^ 32 }
    ensures prints { PrintsTo W.tells W.tape out.old out.new (run_of_job result)
        (IsCheckOf show.now) }
    ensures reads { ReadsFirst show.now (CheckFails show.now) (run_of_job result) }
    ensures remark { TellsOfRun (λ fault. of_run fault show.now (W.reason out.new)) result }
    ensures end { OnOk (run_of_job result) (IsCheckEnd is_strict show.now (end_of result)) }
    ensures seeming { IfOk result (λ remark. IsSeemingRemark show.now remark.items) }
{
    if !is_strict {
        return Ok(check_and_remark(alloc, show, out)?);
    }
    match weight_of(alloc, show) {
        Ok(weight) => {
            let remark = check_and_remark(alloc, show, out)?;
            match strict_end(weight) {
                Ok(()) => Ok(remark),
                Err(doubts) => Err(doubts),
            }
        }
        Err(fault) => Err(JobFault::Run(Failure::of_run(fault, show, out.failure()))),
    }
}

fn check_and_remark<W: JobOutput>(
    alloc: Global,
    show: &[u8],
    out: &mut W,
) -> Result<Remark, Failure>
    ensures prints { PrintsTo W.tells W.tape out.old out.new (run_of result)
        (IsCheckOf show.now) }
    ensures reads { ReadsFirst show.now (CheckFails show.now) (run_of result) }
    ensures remark { TellsOf (λ fault. of_run fault show.now (W.reason out.new)) result }
    ensures seeming { IfOk result (λ remark. IsSeemingRemark show.now remark.items) }
{
    let answer = check(alloc, show, out);
    run_end(answer, show, out.failure())?;
    Ok(seeming_remark(alloc, show))
}

// How much of a show may mean something else than is played.
fn weight_of(alloc: Global, show: &[u8]) -> Result<Weight, RunFault>
    requires { length show.now < 2 ^ 32 }
    ensures weight { IfOk result (λ weight. OfItsShow show.now (λ s.
        IsWeightOf show.now (lines_read desk_limits show.now) s weight)) }
    ensures fault { IfErr result (ReadFails show.now) }
    ensures too_long { longest_text < length show.now → result ≡ Err
        (RunFault.Show show_fault.TooLong) }
{
    let loaded = read_show(alloc, show)?;
    Ok(weigh(alloc, show, &loaded)?)
}
