ghost use Rattle.night_opening.specs.Faults.{IsOfRun};

use cmd_faults::RunFault;
use remarks::{Failure, JobFault};

// Why a night of this show is not played.
pub(crate) fn run_fault(fault: RunFault, show: &[u8]) -> JobFault
    ensures { IsOfRun fault show.now result }
{
    JobFault::Run(Failure::of_run(fault, show, None))
}
