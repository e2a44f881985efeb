ghost use Rattle.std.specs.Prelude.{◌≡◌, IfOk, OnOk, option_map};
ghost use Rattle.cmd_live.specs.Beginning.{CanFollow};
ghost use Rattle.cmd_live.specs.Stands.{IsPlayable};
ghost use Rattle.night_opening.specs.Opening.{BeginsIn, HasGoneOn, IsNewNight};
ghost use Rattle.night_opening.specs.Opening.{IsOpeningBy, IsOpeningFor, IsStillOn, OpensBy};
ghost use Rattle.night_opening.specs.Opening.{StartsBy, TakesUpRecord, text_in_record, unused_file};

use crate::head::{ClockText, head_of};
use crate::playbill::{LiveWords, Playbill};
use crate::run_fault::run_fault;
use cmd_faults::RunFault;
use cmd_live::{Night, Silent};
use fade_core::Fader;
use night_record::NightOpening;
use remarks::{JobFault, Refusal};
use std::alloc::Global;

// So many lines of a record are its head.
const HEAD_LINES: u64 = 2;

/// How a night begins or goes on by what stands in its record, where it has one, at what the clock
/// says.
///
/// # Errors
///
/// `Record` where that is of another night, or of none; `Run` as [`head_of`].
pub fn opening_of(
    bill: &Playbill<'_, '_>,
    clock: Option<ClockText>,
    kept: &Option<&[u8]>,
) -> Result<NightOpening, JobFault>
    ensures { IsOpeningBy bill.now.night.now bill.now.show.now
        (option_map (λ text. text.bytes) clock) (option_map (λ text. text.now) kept.now)
        result }
{
    match kept {
        Some(text) => opening_by(bill, clock, text),
        None => Ok(NightOpening::none()),
    }
}

fn opening_by(
    bill: &Playbill<'_, '_>,
    clock: Option<ClockText>,
    text: &[u8],
) -> Result<NightOpening, JobFault>
    ensures { IsOpeningFor bill.now.night.now bill.now.show.now
        (option_map (λ text. text.bytes) clock) text.now result }
{
    let night = head_of(bill, clock)?;
    match NightOpening::of(&night, text) {
        Ok(opening) => Ok(opening),
        Err(unfit) => Err(JobFault::Record(Refusal::of_unfit(&unfit, &night))),
    }
}

/// Opens a night, behind the lines of its record's text where it goes on.
///
/// # Errors
///
/// `Run` where the show or the cue to start in is refused; `Record` where that cue is named for a
/// night that goes on, a line of the record does not follow, or the night has ended.
pub fn open_night<F: Fader>(
    alloc: Global,
    bill: &Playbill<'_, '_>,
    opening: &NightOpening,
    kept: &Option<&[u8]>,
) -> Result<Night<F>, JobFault>
    ensures playable { IfOk result (λ night. IsPlayable F.stands_for night) }
    ensures opens { OpensBy F.stands_for bill.now opening.now
        (text_in_record (option_map (λ text. text.now) kept.now)) result }
{
    let mut night = new_night(alloc, bill)?;
    match start(&mut night, bill, opening, text_in_record(kept)) {
        Ok(()) => Ok(night),
        Err(fault) => Err(fault),
    }
}

/// Opens a night, so that it can take up what another one did.
///
/// # Errors
///
/// `Run` where the show is refused.
pub fn new_night<F: Fader>(alloc: Global, bill: &Playbill<'_, '_>) -> Result<Night<F>, JobFault>
    ensures follows { IfOk result (λ night. CanFollow F.stands_for night) }
    ensures new { IsNewNight F.stands_for bill.now result }
{
    match Night::<F>::open(alloc, bill.show, bill.source, bill.night.base) {
        Ok(night) => Ok(night),
        Err(fault) => Err(run_fault(fault, bill.show)),
    }
}

fn text_in_record<'t>(kept: &Option<&'t [u8]>) -> &'t [u8]
    ensures { result.now ≡ text_in_record (option_map (λ text. text.now) kept.now) }
{
    match kept {
        Some(text) => text,
        None => &[],
    }
}

// Begins a night, or goes on with it behind the lines of a record's text.
fn start<F: Fader>(
    night: &mut Night<F>,
    bill: &Playbill<'_, '_>,
    opening: &NightOpening,
    text: &[u8],
) -> Result<(), JobFault>
    requires { CanFollow F.stands_for night.old }
    ensures playable { OnOk result (IsPlayable F.stands_for night.new) }
    ensures starts { StartsBy F.stands_for night.old night.new bill.now opening.now text.now
        result }
{
    if opening.lines.goes_on() {
        match go_on(night, &bill.words, opening.lines.of_text(text), text) {
            Ok(()) => Ok(()),
            Err(refusal) => Err(JobFault::Record(refusal)),
        }
    } else {
        match begin(night, bill.words.start) {
            Ok(()) => Ok(()),
            Err(fault) => Err(run_fault(fault, bill.show)),
        }
    }
}

// Begins a night, in a cue where one is named.
fn begin<F: Fader>(night: &mut Night<F>, start: Option<u32>) -> Result<(), RunFault>
    requires { CanFollow F.stands_for night.old }
    ensures playable { OnOk result (IsPlayable F.stands_for night.new) }
    ensures begins { BeginsIn F.stands_for night.old night.new start result }
{
    match start {
        Some(cue) => night.begin_with(cue),
        None => Ok(()),
    }
}

// Goes on behind these lines of the text of a record.
fn go_on<F: Fader>(
    night: &mut Night<F>,
    words: &LiveWords<'_>,
    lines: &[u8],
    text: &[u8],
) -> Result<(), Refusal>
    requires { CanFollow F.stands_for night.old }
    ensures playable { OnOk result (IsPlayable F.stands_for night.new) }
    ensures goes_on { HasGoneOn F.stands_for night.old night.new words.now lines.now text.now
        result }
{
    match unused_file(words) {
        Some(file) => Err(Refusal::has_night(file)),
        None => take_up(night, lines, text),
    }
}

// The file whose night would not go on, since a cue to start in is named.
fn unused_file<'a>(words: &LiveWords<'a>) -> Option<&'a str>
    ensures { option_map (λ file. file.now) result ≡ unused_file words.now }
{
    match words.start {
        Some(_) => words.record_file,
        None => None,
    }
}

// Takes up these lines of the text of a record.
fn take_up<F: Fader>(night: &mut Night<F>, lines: &[u8], text: &[u8]) -> Result<(), Refusal>
    requires { CanFollow F.stands_for night.old }
    ensures playable { OnOk result (IsPlayable F.stands_for night.new) }
    ensures takes { TakesUpRecord F.stands_for night.old night.new lines.now text.now result }
{
    match night.take_up(lines, &mut Silent) {
        Ok(_) => refuse_end(night),
        Err(line) => Err(Refusal::line(line.saturating_add(HEAD_LINES), text)),
    }
}

// Refuses a night that has ended.
fn refuse_end<F: Fader>(night: &Night<F>) -> Result<(), Refusal>
    ensures { IsStillOn night.now result }
{
    if night.is_over() {
        Err(Refusal::night_is_over())
    } else {
        Ok(())
    }
}
