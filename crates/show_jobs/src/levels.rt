ghost use Rattle.std.specs.Prelude.{◌≡◌, ◌<◌, Err, IfErr, IfOk, OnOk, length};
ghost use Rattle.show_reader.specs.Reading.{longest_text};
ghost use Rattle.show_reader.specs.declared.fault.ShowFault.TheVariants as show_fault;
ghost use Rattle.cmd_show.specs.Faults.{LookFails, ReadsFirst};
ghost use Rattle.cmd_show.specs.Prints.{IsLookOf, PrintsTo};
ghost use Rattle.cmd_show.specs.Slots.{HasCue, HasNumbers, IsSlotsOf, SlotsFails};
ghost use Rattle.remarks.specs.Failures.{of_run};
ghost use Rattle.remarks.specs.RunEnds.{TellsOf, run_of};
ghost use Rattle.show_jobs.specs.Levels.{patch_remark};

use cmd_faults::RunFault;
use cmd_show::{look, slots};
use job_devices::JobOutput;
use remarks::{Failure, Remark, plain, run_end};
use std::alloc::Global;

/// A cue whose packets are looked at.
#[derive(Clone, Copy, Debug)]
pub struct CueLook<'a> {
    /// The text of its show.
    pub show: &'a [u8],
    /// Its number, in thousandths.
    pub cue: u32,
    /// The CID of the packets.
    pub cid: [u8; 16],
}

/// A cue whose slots are shown.
#[derive(Clone, Copy, Debug)]
pub struct CueSlots<'a> {
    /// The text of its show.
    pub show: &'a [u8],
    /// Its number, in thousandths.
    pub cue: u32,
    /// The number of the universe of ordinal 0.
    pub base: u16,
}

/// Prints the packets of a cue at full, and remarks that no dimmer is patched exactly where
/// nothing was printed.
///
/// # Errors
///
/// The fault of [`look`], and what is told of it.
pub fn look_at<W: JobOutput>(
    alloc: Global,
    cue: CueLook<'_>,
    out: &mut W,
) -> Result<Remark, Failure>
    ensures prints { let cue = cue.entry in PrintsTo W.tells W.tape out.old out.new
        (run_of result) (IsLookOf cue.show.now cue.cue cue.cid) }
    ensures reads { let cue = cue.entry in
        ReadsFirst cue.show.now (LookFails cue.show.now cue.cue) (run_of result) }
    ensures there { let cue = cue.entry in OnOk result (HasCue cue.show.now cue.cue) }
    ensures remark { let cue = cue.entry in
        TellsOf (λ fault. of_run fault cue.show.now (W.reason out.new)) result }
    ensures patch { W.tells out.new
        → IfOk result (λ remark. remark.items ≡ patch_remark (W.tape out.new).items) }
{
    let answer = look(alloc, cue.show, cue.cue, cue.cid, out);
    levels_end(answer, cue.show, out)
}

/// Prints the slots of a cue at full, and remarks that no dimmer is patched exactly where nothing
/// was printed.
///
/// # Errors
///
/// The fault of [`slots`], and what is told of it.
pub fn show_slots<W: JobOutput>(
    alloc: Global,
    cue: CueSlots<'_>,
    out: &mut W,
) -> Result<Remark, Failure>
    ensures prints { let cue = cue.entry in PrintsTo W.tells W.tape out.old out.new
        (run_of result) (IsSlotsOf cue.show.now cue.cue cue.base) }
    ensures there { let cue = cue.entry in OnOk result (HasCue cue.show.now cue.cue) }
    ensures numbered { let cue = cue.entry in OnOk result (HasNumbers cue.show.now cue.base) }
    ensures fault { let cue = cue.entry in IfErr result (λ failure.
        SlotsFails cue.show.now cue.cue cue.base failure.fault) }
    ensures too_long { let cue = cue.entry in longest_text < length cue.show.now
        → run_of result ≡ Err (RunFault.Show show_fault.TooLong) }
    ensures remark { let cue = cue.entry in
        TellsOf (λ fault. of_run fault cue.show.now (W.reason out.new)) result }
    ensures patch { W.tells out.new
        → IfOk result (λ remark. remark.items ≡ patch_remark (W.tape out.new).items) }
{
    let answer = slots(alloc, cue.show, cue.cue, cue.base, out);
    levels_end(answer, cue.show, out)
}

// How a run that prints the levels of a cue ends.
fn levels_end<W: JobOutput>(
    answer: Result<(), RunFault>,
    show: &[u8],
    out: &W,
) -> Result<Remark, Failure>
    ensures run { run_of result ≡ answer }
    ensures remark { TellsOf (λ fault. of_run fault show.now (W.reason out.now)) result }
    ensures patch { W.tells out.now
        → IfOk result (λ remark. remark.items ≡ patch_remark (W.tape out.now).items) }
{
    run_end(answer, show, out.failure())?;
    if out.is_empty() {
        Ok(plain("no dimmer is patched"))
    } else {
        Ok(Remark::new())
    }
}
