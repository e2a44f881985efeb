ghost use Rattle.std.specs.Prelude.{◌≡◌, ◌≤◌, ◌+◌, ◌++◌, ◌∷◌, [], length, decimal};
ghost use Rattle.cmd_faults.specs.Status.{line_fault_text, fault_text, fault_status};
ghost use Rattle.cmd_faults.specs.Status.{status_of, Reports};

use crate::fault::RunFault;
use arrayvec::ArrayString;
use devices::Output;
use itoa::Buffer;
use rehearsal_faults::Fault;
use show_reader::ShowFault;

// A report is one line. There is room for a name of 13 bytes beside the most digits that `itoa`
// writes of any number.
type Report = ArrayString<66>;

/// Reports how a run ended, and answers the program's exit status: 0 done, 2 base refused, 3 show
/// refused, 4 input line or script refused, 5 device fault or lost packets, 6 out of memory. It
/// takes no memory.
///
/// The report of a fault is one line on the output, and there is none for a run that ended well.
/// The status is the same where that write fails.
pub fn exit_status<W: Output>(answer: &Result<(), RunFault>, err: &mut W) -> u8
    ensures status { result ≡ status_of answer.now }
    ensures told { W.tells err.new → W.tells err.old }
    ensures text { W.tells err.new → Reports answer.now (W.tape err.old) (W.tape err.new) }
{
    match answer {
        Ok(()) => 0,
        Err(fault) => {
            let _ = err.write(report_of(*fault).as_str().as_bytes());
            status_of(*fault)
        }
    }
}

fn status_of(fault: RunFault) -> u8
    ensures { result ≡ fault_status fault }
{
    match fault {
        RunFault::Memory | RunFault::Show(ShowFault::Memory) | RunFault::Setup(Fault::Memory) => 6,
        RunFault::Base => 2,
        RunFault::Show(_) | RunFault::NoCue => 3,
        RunFault::Line(_) | RunFault::Script | RunFault::Setup(_) => 4,
        RunFault::Device | RunFault::Lost(_) => 5,
    }
}

fn report_of(fault: RunFault) -> Report
    ensures { result.bytes ≡ fault_text fault ++ 10 ∷ [] }
{
    match fault {
        RunFault::Show(fault) => show_report(fault),
        RunFault::NoCue => plain("show: NoCue"),
        RunFault::Base => plain("base: Universe"),
        RunFault::Line(line) => report_with_number("line ", u64::from(line), " refused"),
        RunFault::Script => plain("script: TooLong"),
        RunFault::Setup(fault) => plain(setup_text(fault)),
        RunFault::Device => plain("device fault"),
        RunFault::Lost(count) => report_with_number("lost ", count, ""),
        RunFault::Memory => plain("memory"),
    }
}

fn show_report(fault: ShowFault) -> Report
    ensures { result.bytes ≡ fault_text (RunFault.Show fault) ++ 10 ∷ [] }
{
    match fault {
        ShowFault::TooLong => plain("show: TooLong"),
        ShowFault::Ident(line) => at_line(line, "Ident"),
        ShowFault::MissingNumber(line) => at_line(line, "MissingNumber"),
        ShowFault::BadNumber(line) => at_line(line, "BadNumber"),
        ShowFault::BadLevel(line) => at_line(line, "BadLevel"),
        ShowFault::BadTime(line) => at_line(line, "BadTime"),
        ShowFault::HalfPair(line) => at_line(line, "HalfPair"),
        ShowFault::HalfTriple(line) => at_line(line, "HalfTriple"),
        ShowFault::Limit(line) => at_line(line, "Limit"),
        ShowFault::Memory => plain("memory"),
    }
}

fn setup_text(fault: Fault) -> &'static str
    ensures text { result.now ≡ fault_text (RunFault.Setup fault) }
    ensures room { length result.now ≤ 63 }
{
    match fault {
        Fault::Consoles => "setup: Consoles",
        Fault::Receivers => "setup: Receivers",
        Fault::NoShow => "setup: NoShow",
        Fault::Universe => "setup: Universe",
        Fault::Memory => "memory",
    }
}

fn at_line(line: u32, name: &str) -> Report
    requires { length name.now ≤ 13 }
    ensures { result.bytes ≡ line_fault_text line name.now ++ 10 ∷ [] }
{
    let mut report = ArrayString::new();
    report.push_str("show line ");
    report.push_str(Buffer::new().format(line));
    report.push_str(": ");
    report.push_str(name);
    report.push_str("\n");
    report
}

fn report_with_number(before: &str, number: u64, behind: &str) -> Report
    requires before { length before.now ≤ 5 }
    requires behind { length behind.now ≤ 8 }
    ensures { result.bytes ≡ before.now ++ decimal number ++ behind.now ++ 10 ∷ [] }
{
    let mut report = ArrayString::new();
    report.push_str(before);
    report.push_str(Buffer::new().format(number));
    report.push_str(behind);
    report.push_str("\n");
    report
}

fn plain(text: &str) -> Report
    requires { length text.now ≤ 63 }
    ensures { result.bytes ≡ text.now ++ 10 ∷ [] }
{
    let mut report = ArrayString::new();
    report.push_str(text);
    report.push_str("\n");
    report
}
