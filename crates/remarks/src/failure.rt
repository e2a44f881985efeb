ghost use Rattle.std.specs.Prelude.{◌≡◌, [], ◌∷◌, codes};
ghost use Rattle.cmd_faults.specs.Runs as runs;
ghost use Rattle.cmd_faults.specs.declared.fault.RunFault.TheVariants as run;
ghost use Rattle.remarks.specs.Remarks.{of_device, remark_of};
ghost use Rattle.remarks.specs.Failures.{Fails, of_cid_lock, of_night, of_rehearsal, of_run};
ghost use Rattle.remarks.specs.Failures.{of_standard, of_watch};
ghost use Rattle.remarks.specs.declared.failure.JobFault.TheVariants as job;

use crate::refusal::Refusal;
use crate::remark::{Remark, join, of_device, part, plain};
use crate::text_line::{of_line, of_setup, of_show};
use cmd_faults::RunFault;
use show_reader::ShowFault;
use std::io::ErrorKind;

const INPUT_LINE: &str = "MOMENT and go, back, goto CUE, goto CUE in TIME, sub N LEVEL, \
    group N LEVEL, master LEVEL, end or tick";

const WATCH_LINE: &str = "MOMENT and a datagram in hex, or MOMENT alone, in at most 3072 bytes";

const SCRIPT_LINE: &str = "console BASE PRIORITY UUID, receiver UNIVERSE, \
    or MOMENT and do, tick, deliver, stray or slots";

/// Why a job did not end well, and what is told of it behind the line of its fault.
#[derive(Debug, Drop)]
pub struct Failure {
    pub fault: RunFault,
    pub remark: Remark,
}

/// A packet that the system did not take.
#[derive(Clone, Copy, Debug)]
pub struct LostPacket<'a> {
    /// Where it was to go.
    pub address: &'a str,
    pub kind: ErrorKind,
}

impl Failure {
    /// A device of this name failed, for the system's reason.
    pub fn of_device(name: &str, kind: ErrorKind) -> Failure
        ensures { Fails run.Device (of_device name.now kind) result }
    {
        Failure {
            fault: RunFault::Device,
            remark: of_device(name, kind),
        }
    }

    /// The socket of a listen failed, for the system's reason.
    pub fn of_socket(kind: ErrorKind) -> Failure
        ensures { Fails run.Device (of_device (codes "the socket") kind) result }
    {
        Failure::of_device("the socket", kind)
    }

    /// A device failed, as these words tell.
    pub fn device(words: &str) -> Failure
        ensures { Fails run.Device (remark_of (words.now ∷ [])) result }
    {
        Failure {
            fault: RunFault::Device,
            remark: plain(words),
        }
    }

    /// This show was not read.
    pub fn of_show(fault: ShowFault, show: &[u8]) -> Failure
        ensures { Fails (runs.of_show fault) (of_run (runs.of_show fault) show.now None) result }
    {
        Failure::of_run(RunFault::from(fault), show, None)
    }

    /// A run over this show, with lines of standard input, and with replies to standard output
    /// that the system refused for a reason.
    pub fn of_run(fault: RunFault, show: &[u8], output: Option<ErrorKind>) -> Failure
        ensures { Fails fault (of_run fault show.now output) result }
    {
        Failure {
            fault,
            remark: of_run(fault, show, output),
        }
    }

    /// A night over this show. Of packets that were lost, the last is told of.
    pub fn of_night(
        fault: RunFault,
        show: &[u8],
        lost: Option<LostPacket<'_>>,
        output: Option<ErrorKind>,
    ) -> Failure
        ensures { Fails fault (of_night fault show.now lost.entry output) result }
    {
        let remark = match (fault, lost) {
            (RunFault::Lost(_), Some(lost)) => of_device(lost.address, lost.kind),
            _ => of_run(fault, show, output),
        };
        Failure { fault, remark }
    }

    /// Another console on this machine sends under the CID of a night, by a lock in this file.
    pub fn of_cid_lock(file: &str) -> Failure
        ensures { Fails run.Device (of_cid_lock file.now) result }
    {
        let words: &[u8] = b"another console on this machine sends under this CID, by ";
        Failure {
            fault: RunFault::Device,
            remark: join(&[words, part(file)]),
        }
    }

    /// A watch of lines of standard input, whose output the system refused for a reason.
    pub fn of_watch(fault: RunFault, output: Option<ErrorKind>) -> Failure
        ensures { Fails fault (of_watch fault output) result }
    {
        Failure {
            fault,
            remark: of_watch(fault, output),
        }
    }

    /// A rehearsal of this script over this show.
    pub fn of_rehearsal(
        fault: RunFault,
        show: &[u8],
        script: &[u8],
        output: Option<ErrorKind>,
    ) -> Failure
        ensures { Fails fault (of_rehearsal fault show.now script.now output) result }
    {
        Failure {
            fault,
            remark: of_rehearsal(fault, show, script, output),
        }
    }
}

fn of_run(fault: RunFault, show: &[u8], output: Option<ErrorKind>) -> Remark
    ensures { result.items ≡ of_run fault show.now output }
{
    match fault {
        RunFault::Show(fault) => of_show(fault, show),
        RunFault::NoCue => plain("the show has no cue of this number"),
        RunFault::Base => plain("the base, and the show's universes after it, are 1 to 63999"),
        RunFault::Line(_) => plain(INPUT_LINE),
        RunFault::Device => of_standard(output),
        _ => Remark::new(),
    }
}

fn of_watch(fault: RunFault, output: Option<ErrorKind>) -> Remark
    ensures { result.items ≡ of_watch fault output }
{
    match fault {
        RunFault::Line(_) => plain(WATCH_LINE),
        _ => of_run(fault, &[], output),
    }
}

fn of_rehearsal(fault: RunFault, show: &[u8], script: &[u8], output: Option<ErrorKind>) -> Remark
    ensures { result.items ≡ of_rehearsal fault show.now script.now output }
{
    match fault {
        RunFault::Line(line) => of_line(u64::from(line), script, SCRIPT_LINE),
        RunFault::Script => plain("a script has at most 16777216 bytes"),
        RunFault::Setup(fault) => of_setup(fault),
        _ => of_run(fault, show, output),
    }
}

// Standard output was refused for a reason, or else standard input failed.
fn of_standard(output: Option<ErrorKind>) -> Remark
    ensures { result.items ≡ of_standard output }
{
    match output {
        Some(kind) => of_device("standard output", kind),
        None => plain("standard input could not be read"),
    }
}

impl From<RunFault> for Failure {
    ghost from_gives = { λ fault failure. Fails fault [] failure };

    fn from(fault: RunFault) -> Failure {
        Failure {
            fault,
            remark: Remark::new(),
        }
    }
}

/// Why a job did not end well, or did not begin.
#[derive(Debug, Drop)]
pub enum JobFault {
    Run(Failure),
    /// A night did not begin, since its record was refused.
    Record(Refusal),
    /// A strict check found what may mean something else than is played.
    Doubts(Remark),
    /// A night did not begin, since its words do not suit the show or the machine.
    Words(Remark),
}

impl From<Failure> for JobFault {
    ghost from_gives = { λ failure fault. fault ≡ job.Run failure };

    fn from(failure: Failure) -> JobFault {
        JobFault::Run(failure)
    }
}
