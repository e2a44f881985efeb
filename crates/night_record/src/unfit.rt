ghost use Rattle.night_record.specs.Unfit.{FollowsFound, IsMain, IsOwn, TakesUpFound};

use crate::difference::Difference;
use crate::head::RecordHead;
use crate::head_lines::FirstLines;

/// Why a night does not go on by a record.
#[derive(Debug, Drop)]
pub enum Unfit {
    /// No night began it, or its head did not come in time.
    NoRecord,
    /// Its head is that of another night: the first part that differs.
    Other(Difference, RecordHead),
}

/// Why a night does not follow a record.
#[derive(Debug, Drop)]
pub enum UnfitMain {
    /// No night began it, or its head did not come in time.
    NoRecord,
    /// It is of another show, or its universes have other numbers.
    Other(Difference, RecordHead),
    /// Who plays it sends under the same CID.
    SameCid,
}

/// The head of a night's own record, by its two lines without the last LF.
///
/// # Errors
///
/// Where they are the head of another night, or of none.
pub fn own_head(night: &RecordHead, lines: &[u8]) -> Result<RecordHead, Unfit>
    ensures { IsOwn night.now lines.now result }
{
    let Some(head) = RecordHead::read(lines) else {
        return Err(Unfit::NoRecord);
    };
    match head.differs_from(night) {
        Some(difference) => Err(Unfit::Other(difference, head)),
        None => Ok(head),
    }
}

/// The lines of the record that a night takes up, by its head, where that was found in time.
///
/// # Errors
///
/// Where no head was found, or not the head of this night.
pub fn own_lines<L: Drop>(night: &RecordHead, found: Option<(FirstLines, L)>) -> Result<L, Unfit>
    ensures { TakesUpFound night.now found result }
{
    let Some((head, lines)) = found else {
        return Err(Unfit::NoRecord);
    };
    match own_head(night, head.as_slice()) {
        Ok(_) => Ok(lines),
        Err(unfit) => Err(unfit),
    }
}

/// The head and the lines of the record of a main that a night follows, where its head was found in
/// time.
///
/// # Errors
///
/// Where no head was found, or none that can be followed.
pub fn main_lines<L: Drop>(
    night: &RecordHead,
    found: Option<(FirstLines, L)>,
) -> Result<(RecordHead, L), UnfitMain>
    ensures { FollowsFound night.now found result }
{
    let Some((head, lines)) = found else {
        return Err(UnfitMain::NoRecord);
    };
    match main_head(night, head.as_slice()) {
        Ok(head) => Ok((head, lines)),
        Err(unfit) => Err(unfit),
    }
}

/// The head of the record of a main that a night follows, by its two lines without the last LF.
///
/// # Errors
///
/// Where they are the head of no record, or one that cannot be followed.
pub fn main_head(night: &RecordHead, lines: &[u8]) -> Result<RecordHead, UnfitMain>
    ensures { IsMain night.now lines.now result }
{
    let Some(head) = RecordHead::read(lines) else {
        return Err(UnfitMain::NoRecord);
    };
    if head.show != night.show {
        return Err(UnfitMain::Other(Difference::Show, head));
    }
    if head.base != night.base {
        return Err(UnfitMain::Other(Difference::Base, head));
    }
    if head.cid == night.cid {
        return Err(UnfitMain::SameCid);
    }
    Ok(head)
}
