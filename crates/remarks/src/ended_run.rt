ghost use Rattle.std.specs.Prelude.{◌≡◌};
ghost use Rattle.remarks.specs.Failures as spec;
ghost use Rattle.remarks.specs.RunEnds.{TellsOf, run_of};

use crate::failure::{Failure, LostPacket};
use cmd_faults::RunFault;
use std::io::ErrorKind;

/// How a job ends whose run over this show has ended, where standard output may have been refused
/// for a reason.
///
/// # Errors
///
/// The fault of the run, and what is told of it.
pub fn run_end(
    answer: Result<(), RunFault>,
    show: &[u8],
    output: Option<ErrorKind>,
) -> Result<(), Failure>
    ensures run { run_of result ≡ answer }
    ensures remark { TellsOf (λ fault. spec.of_run fault show.now output) result }
{
    match answer {
        Ok(()) => Ok(()),
        Err(fault) => Err(Failure::of_run(fault, show, output)),
    }
}

/// How a night over this show ends. Of packets that were lost, the last is told of.
///
/// # Errors
///
/// The fault of the night, and what is told of it.
pub fn night_end(
    answer: Result<(), RunFault>,
    show: &[u8],
    lost: Option<LostPacket<'_>>,
    output: Option<ErrorKind>,
) -> Result<(), Failure>
    ensures run { run_of result ≡ answer }
    ensures remark { TellsOf (λ fault. spec.of_night fault show.now lost.entry output) result }
{
    match answer {
        Ok(()) => Ok(()),
        Err(fault) => Err(Failure::of_night(fault, show, lost, output)),
    }
}
