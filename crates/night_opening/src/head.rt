ghost use Rattle.std.specs.Prelude.{◌≡◌, option_map};
ghost use Rattle.night_opening.specs.Heads.{IsHeadFor, IsMoment, IsNamedHead};

use crate::playbill::Playbill;
use arrayvec::ArrayString;
use cmd_words::source_name;
use night_record::{HeadName, RecordHead};
use remarks::Failure;
use sha2::{Digest, Sha256};

/// What a clock says, as `2026-11-26T19:30:00.250Z`: a year beyond 9999 is longer.
pub type ClockText = ArrayString<40>;

/// The head of the record of a night that begins at what the clock says, where it says something.
///
/// # Errors
///
/// `Device` where the name of who sends has no room, or the clock says no moment.
pub fn head_of(bill: &Playbill<'_, '_>, clock: Option<ClockText>) -> Result<RecordHead, Failure>
    ensures { IsHeadFor bill.now.night.now bill.now.show.now
        (option_map (λ text. text.bytes) clock) result }
{
    match HeadName::new(source_name(bill.night).as_bytes()) {
        Some(name) => named_head(bill, name, clock),
        None => Err(Failure::device("the source name is too long")),
    }
}

fn named_head(
    bill: &Playbill<'_, '_>,
    name: HeadName,
    clock: Option<ClockText>,
) -> Result<RecordHead, Failure>
    ensures { IsNamedHead bill.now.night.now bill.now.show.now name
        (option_map (λ text. text.bytes) clock) result }
{
    let night = bill.night;
    Ok(RecordHead {
        show: Sha256::digest(bill.show),
        cid: night.cid,
        priority: night.priority,
        base: night.base,
        name,
        started: moment_of(clock)?,
    })
}

fn moment_of(clock: Option<ClockText>) -> Result<[u8; 24], Failure>
    ensures { IsMoment (option_map (λ text. text.bytes) clock) result }
{
    let Some(text) = clock else {
        return Err(Failure::device("the clock cannot be read"));
    };
    match <[u8; 24]>::try_from(text.as_str().as_bytes()) {
        Ok(moment) => Ok(moment),
        Err(_) => Err(Failure::device("the clock is beyond the year 9999")),
    }
}
