ghost use Rattle.night_opening.specs.OtherRecords.{AreMainLines, AreOwnLines, IsOpeningBehind};

use night_files::RecordFault;
use night_record::{FirstLines, NightOpening, RecordHead, main_lines, own_lines};
use remarks::{JobFault, Refusal, of_record};
use std::io::ErrorKind;

/// The lines of the record of this very night, which another process plays, where its head was
/// found in time.
///
/// # Errors
///
/// `Record` where no head was found, or not the head of this night.
pub fn lines_to_take_up<L: Drop>(
    night: &RecordHead,
    found: Option<(FirstLines, L)>,
) -> Result<L, JobFault>
    ensures { AreOwnLines night.now found result }
{
    match own_lines(night, found) {
        Ok(lines) => Ok(lines),
        Err(unfit) => Err(JobFault::Record(Refusal::of_unfit(&unfit, night))),
    }
}

/// The head and the lines of the record of a main, where its head was found in time.
///
/// # Errors
///
/// `Record` where no head was found, or none that this night can follow.
pub fn lines_to_follow<L: Drop>(
    night: &RecordHead,
    found: Option<(FirstLines, L)>,
) -> Result<(RecordHead, L), JobFault>
    ensures { AreMainLines night.now found result }
{
    match main_lines(night, found) {
        Ok(main) => Ok(main),
        Err(unfit) => Err(JobFault::Record(Refusal::of_unfit_main(&unfit, night))),
    }
}

/// How a night goes on in the file of this name, behind so many bytes of its record that another
/// process played.
///
/// # Errors
///
/// As [`of_record`]: what failed meanwhile; or that the record is gone.
pub fn opening_behind(
    name: &str,
    given: u64,
    failure: Option<RecordFault>,
    is_there: bool,
) -> Result<NightOpening, JobFault>
    ensures { IsOpeningBehind name.now given failure is_there result }
{
    let gone = RecordFault::File(ErrorKind::NotFound);
    match NightOpening::behind_played(given, failure, is_there, gone) {
        Ok(opening) => Ok(opening),
        Err(fault) => Err(of_record(name, fault)),
    }
}
