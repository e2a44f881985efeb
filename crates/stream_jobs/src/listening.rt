ghost use Rattle.std.specs.Prelude.{◌≡◌, ◌≤◌, All, IfErr};
ghost use Rattle.cmd_listen.specs.Listening.{Listens};
ghost use Rattle.cmd_listen.specs.Runs.{Watches};
ghost use Rattle.remarks.specs.Failures.{of_watch};
ghost use Rattle.remarks.specs.JobEnds.{WroteEach, remark_texts};
ghost use Rattle.remarks.specs.Listening.{of_listening};
ghost use Rattle.remarks.specs.RunEnds.{TellsOf, run_of};
ghost use Rattle.stream_jobs.specs.Listens.{of_listen};

use cmd_faults::RunFault;
use cmd_listen::{listen, watch};
use devices::{Feed, Output};
use job_devices::{JobOutput, JobSource};
use remarks::{Failure, of_listening, run_end, tell_remark};
use std::alloc::Global;
use std::io::ErrorKind;

/// A listen at a socket that is bound.
#[derive(Clone, Copy, Debug)]
pub struct ListenPlace<'a> {
    /// The address of the socket, with its port.
    pub address: &'a str,
    /// The host that was asked for.
    pub host: [u8; 4],
    pub universe: u16,
    /// It ends behind so many datagrams.
    pub count: u32,
}

/// Remarks where it listens, where there are remarks, receives so many datagrams as a receiver of
/// the universe, and prints the reply to each and, after the last one, the slots. Of a socket and of
/// standard output that failed, the socket is told.
///
/// # Errors
///
/// `Device` where the source failed, or a write.
pub fn listen_at<D: JobSource, W: JobOutput, E: Output>(
    source: &mut D,
    place: ListenPlace<'_>,
    has_remarks: bool,
    out: &mut W,
    err: &mut E,
) -> Result<(), Failure>
    requires from_1 { 1 ≤ place.universe }
    requires to_63999 { place.universe ≤ 63999 }
    ensures told_source { D.tells source.new → D.tells source.old }
    ensures told_output { W.tells out.new → W.tells out.old }
    ensures text { let place = place.entry in D.tells source.new → W.tells out.new
        → Listens (run_of result) place.universe place.count
        (D.tape source.old) (D.tape source.new) (W.tape out.old) (W.tape out.new) }
    ensures fault { IfErr result (λ failure. failure.fault ≡ RunFault.Device) }
    ensures remark { TellsOf (λ fault. of_listen (D.reason source.new) fault (W.reason out.new))
        result }
    ensures told { E.tells err.new → E.tells err.old }
    ensures texts { let place = place.entry in E.tells err.new
        → WroteEach (remark_texts has_remarks (of_listening place.address.now place.host))
        (E.tape err.old) (E.tape err.new) }
{
    let remark = of_listening(place.address, place.host);
    tell_remark(&remark, has_remarks, err);
    let answer = listen(source, place.universe, place.count, out);
    listen_end(answer, source.failure(), out.failure())
}

fn listen_end(
    answer: Result<(), RunFault>,
    socket: Option<ErrorKind>,
    output: Option<ErrorKind>,
) -> Result<(), Failure>
    requires { IfErr answer (λ fault. fault ≡ RunFault.Device) }
    ensures run { run_of result ≡ answer }
    ensures remark { TellsOf (λ fault. of_listen socket fault output) result }
{
    match (answer, socket) {
        (Err(_), Some(kind)) => Err(Failure::of_socket(kind)),
        _ => run_end(answer, &[], output),
    }
}

/// Watches universes, 1 to 63,999 each, by the lines of an input, and prints what changes.
///
/// # Errors
///
/// The fault of [`watch`], and what is told of it.
pub fn watch_lines<R: Feed, W: JobOutput>(
    alloc: Global,
    input: &mut R,
    universes: &[u16],
    out: &mut W,
) -> Result<(), Failure>
    requires { All (λ u. (1 ≤ u) × (u ≤ 63999)) universes.now }
    ensures told_input { R.tells input.new → R.tells input.old }
    ensures told_output { W.tells out.new → W.tells out.old }
    ensures watches { R.tells input.new → W.tells out.new
        → Watches universes.now (run_of result) (R.ended input.new) (R.tape input.old)
        (R.tape input.new) (W.tape out.old) (W.tape out.new) }
    ensures remark { TellsOf (λ fault. of_watch fault (W.reason out.new)) result }
{
    match watch(alloc, input, universes, out) {
        Ok(()) => Ok(()),
        Err(fault) => Err(Failure::of_watch(fault, out.failure())),
    }
}
