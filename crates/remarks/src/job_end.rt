ghost use Rattle.std.specs.Prelude.{◌≡◌};
ghost use Rattle.remarks.specs.JobEnds as spec;
ghost use Rattle.remarks.specs.JobEnds.{IsEndOfMemory, IsEndOfText, IsEndOfUnread, IsWordsFault};
ghost use Rattle.remarks.specs.JobEnds.{WroteEach};
ghost use Rattle.remarks.specs.Misfits.{of_misfit};
ghost use Rattle.cmd_faults.specs.Status.{Wrote, fault_status, fault_text};

use crate::failure::{Failure, JobFault};
use crate::misfit::of_misfit;
use crate::remark::{Remark, plain};
use cmd_faults::{RunFault, exit_status};
use cmd_words::Misfit;
use devices::Output;
use std::io::ErrorKind;

// The exit status of words that are refused.
const WORDS_REFUSED: u8 = 2;

// The exit status of a show that a strict check refuses.
const SHOW_REFUSED: u8 = 3;

// The exit status of a record that is refused.
const RECORD_REFUSED: u8 = 4;

/// How the program ends.
#[derive(Debug, Drop)]
pub enum JobEnd {
    /// Well, with a remark on what was found.
    Well(Remark),
    /// Its words are refused, and the whole text of that was told.
    Refusal,
    /// By a fault.
    Fault(JobFault),
}

impl JobEnd {
    /// The end of a job.
    pub fn of_job(answer: Result<Remark, JobFault>) -> JobEnd
        ensures { result ≡ spec.end_of_job answer }
    {
        match answer {
            Ok(remark) => JobEnd::Well(remark),
            Err(fault) => JobEnd::Fault(fault),
        }
    }

    /// The end where a text was all that was to be told: why the words are refused, on standard
    /// error, or the help that they asked for, on standard output, which may have taken none for
    /// the system's reason.
    pub fn of_text(is_refusal: bool, shown: Result<(), ErrorKind>) -> JobEnd
        ensures { IsEndOfText is_refusal shown result }
    {
        match shown {
            _ if is_refusal => JobEnd::Refusal,
            Ok(()) => JobEnd::Well(Remark::new()),
            Err(kind) => {
                JobEnd::Fault(JobFault::Run(Failure::of_device("standard output", kind)))
            }
        }
    }

    /// The end where the words could not be read, for the system's reason.
    pub fn of_unread(kind: ErrorKind) -> JobEnd
        ensures { IsEndOfUnread kind result }
    {
        match kind {
            ErrorKind::OutOfMemory => JobEnd::of_memory(),
            _ => JobEnd::Fault(JobFault::Words(plain("the words are text in UTF-8"))),
        }
    }

    /// The end where a word lacks its form.
    pub fn of_misfit(misfit: &Misfit) -> JobEnd
        ensures { IsWordsFault (of_misfit misfit.now) result }
    {
        JobEnd::Fault(JobFault::Words(of_misfit(misfit)))
    }

    /// The end where an allocation failed.
    pub fn of_memory() -> JobEnd
        ensures { IsEndOfMemory result }
    {
        JobEnd::Fault(JobFault::Run(Failure::from(RunFault::Memory)))
    }

    /// Tells how the program ends, with its remark where there are remarks, and answers its exit
    /// status, 0 to 6. Each text is one write. The status is the same where a write fails, and the
    /// next text is written then too.
    pub fn tell<W: Output>(&self, has_remarks: bool, err: &mut W) -> u8
        ensures status { result ≡ spec.end_status self.now }
        ensures told { W.tells err.new → W.tells err.old }
        ensures texts { W.tells err.new
            → WroteEach (spec.end_texts has_remarks self.now) (W.tape err.old) (W.tape err.new) }
    {
        match self {
            JobEnd::Well(remark) => {
                tell_remark(remark, has_remarks, err);
                0
            }
            JobEnd::Refusal => WORDS_REFUSED,
            JobEnd::Fault(fault) => tell_fault(fault, has_remarks, err),
        }
    }
}

fn tell_fault<W: Output>(fault: &JobFault, has_remarks: bool, err: &mut W) -> u8
    ensures status { result ≡ spec.job_status fault.now }
    ensures told { W.tells err.new → W.tells err.old }
    ensures texts { W.tells err.new
        → WroteEach (spec.end_texts has_remarks (JobEnd.Fault fault.now)) (W.tape err.old)
        (W.tape err.new) }
{
    let status = tell_line(fault, err);
    tell_remark(remark_of(fault), has_remarks, err);
    status
}

// Tells the line of a fault, and answers its status.
fn tell_line<W: Output>(fault: &JobFault, err: &mut W) -> u8
    ensures status { result ≡ spec.job_status fault.now }
    ensures told { W.tells err.new → W.tells err.old }
    ensures line { W.tells err.new
        → Wrote (spec.fault_line fault.now) (W.tape err.old) (W.tape err.new) }
{
    let (line, status): (&[u8], u8) = match fault {
        JobFault::Run(failure) => return exit_status(&Err(failure.fault), err),
        JobFault::Words(_) => (b"words refused\n", WORDS_REFUSED),
        JobFault::Doubts(_) => (b"show: Doubtful\n", SHOW_REFUSED),
        JobFault::Record(refusal) => (refusal.line.as_str().as_bytes(), RECORD_REFUSED),
    };
    tell_text(line, err);
    status
}

fn remark_of(fault: &JobFault) -> &Remark
    ensures { result.now.items ≡ spec.fault_remark fault.now }
{
    match fault {
        JobFault::Run(failure) => &failure.remark,
        JobFault::Words(remark) | JobFault::Doubts(remark) => remark,
        JobFault::Record(refusal) => &refusal.remark,
    }
}

/// Tells a remark on a line of its own, where there are remarks.
pub fn tell_remark<W: Output>(remark: &Remark, has_remarks: bool, err: &mut W)
    ensures told { W.tells err.new → W.tells err.old }
    ensures texts { W.tells err.new → WroteEach (spec.remark_texts has_remarks remark.now.items)
        (W.tape err.old) (W.tape err.new) }
{
    if has_remarks && !remark.is_empty() {
        tell_text(remark.as_slice(), err);
        tell_text(b"\n", err);
    }
}

// Tells a text in one write. That it is not told is told nowhere.
fn tell_text<W: Output>(text: &[u8], err: &mut W)
    ensures told { W.tells err.new → W.tells err.old }
    ensures text { W.tells err.new → Wrote text.now (W.tape err.old) (W.tape err.new) }
{
    let _ = err.write(text);
}
