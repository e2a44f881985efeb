use crate::live_job::Playbill;
use arrayvec::ArrayString;
use jiff::Timestamp;
use night_opening::ClockText;
use night_record::RecordHead;
use remarks::Failure;
use std::fmt::Write;

/// The head of a record of this night that begins now.
///
/// # Errors
///
/// Where the clock cannot be read.
pub fn head_of(rt: &HostRuntime, bill: &Playbill<'_, '_>) -> Result<RecordHead, Failure> {
    night_opening::head_of(bill, clock_text(rt))
}

/// The system's time, as `2026-11-26T19:30:00.250Z`.
pub fn clock_text(rt: &HostRuntime) -> Option<ClockText> {
    let now = Timestamp::now(rt).ok()?;
    let mut text = ArrayString::new();
    let _ = write!(text, "{now:.3}");
    Some(text)
}
