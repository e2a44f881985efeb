ghost use Rattle.std.specs.Prelude.{◌≡◌, ◌≤◌, IfErr, IfOk, IfSome, Ok, length, take};
ghost use Rattle.cueplayer.specs.Reading.{IsReadingFault};
ghost use Rattle.night_opening.specs.Fits.{IsFit};

use byte_reading::{Unread, first_bytes};
use cmd_faults::RunFault;
use cmd_rehearse::LONGEST_SCRIPT;
use cmd_words::Night;
use night_opening::check_fit;
use night_record::FirstLines;
use remarks::{Failure, JobFault};
use show_reader::LONGEST_TEXT;
use std::alloc::Global;
use std::fs::File;
use std::io::Read;
use system_devices::{AppendedLines, DeviceFault, lines_in_time};

// One byte more than a show text may have, so that a longer one is seen.
const MOST_OF_SHOW: usize = LONGEST_TEXT + 1;

// One byte more than a script may have, so that a longer one is seen.
const MOST_OF_SCRIPT: usize = LONGEST_SCRIPT + 1;

/// The record of a night that another process plays has its head within so many milliseconds.
pub const HEAD_PATIENCE: u64 = 1000;

/// The first bytes of the show of this name: `-` stands for standard input.
///
/// # Errors
///
/// `Device` where it cannot be read; `Memory` if an allocation failed.
pub fn show_text(rt: &HostRuntime, name: &str) -> Result<Vec<u8>, Failure>
    ensures most { IfOk result (λ bytes. length bytes.items ≤ 1048577) }
    ensures fault { IfErr result IsReadingFault }
{
    if name == "-" {
        return first_text("standard input", rt.alloc(), &mut rt.stdin(), MOST_OF_SHOW);
    }
    file_text(rt, name)
}

/// The first bytes of the show in the file of this name.
///
/// # Errors
///
/// As [`show_text`].
pub fn file_text(rt: &HostRuntime, name: &str) -> Result<Vec<u8>, Failure>
    ensures most { IfOk result (λ bytes. length bytes.items ≤ 1048577) }
    ensures fault { IfErr result IsReadingFault }
{
    first_text(name, rt.alloc(), &mut open(rt, name)?, MOST_OF_SHOW)
}

/// The first bytes of the show of a night, which can be played as the night asks.
///
/// # Errors
///
/// As [`show_text`] and [`check_fit`].
pub fn suitable_show(rt: &HostRuntime, night: &Night) -> Result<Vec<u8>, JobFault>
    ensures most { IfOk result (λ bytes. length bytes.items ≤ 1048577) }
    ensures fit { IfOk result (λ bytes. IsFit night.now bytes.items (Ok tt)) }
{
    let text = file_text(rt, night.show.as_str())?;
    check_fit(rt.alloc(), night, text.as_slice())?;
    Ok(text)
}

/// The first bytes of the script in the file of this name.
///
/// # Errors
///
/// As [`show_text`].
pub fn script_text(rt: &HostRuntime, name: &str) -> Result<Vec<u8>, Failure>
    ensures most { IfOk result (λ bytes. length bytes.items ≤ 16777217) }
    ensures fault { IfErr result IsReadingFault }
{
    first_text(name, rt.alloc(), &mut open(rt, name)?, MOST_OF_SCRIPT)
}

fn open(rt: &HostRuntime, name: &str) -> Result<File, Failure>
    ensures fault { IfErr result IsReadingFault }
{
    match File::open(rt, name) {
        Ok(file) => Ok(file),
        Err(error) => Err(Failure::of_device(name, error.kind())),
    }
}

// The first bytes of an input of this name, at most so many.
fn first_text<R: Read>(
    name: &str,
    alloc: Global,
    input: &mut R,
    most: usize,
) -> Result<Vec<u8>, Failure>
    ensures most { IfOk result (λ bytes. length bytes.items ≤ most) }
    ensures fault { IfErr result IsReadingFault }
    ensures first { IfOk result (λ bytes. IfSome (R.remaining input.old)
        (λ left. bytes.items ≡ take most left)) }
{
    match first_bytes(alloc, input, most) {
        Ok(bytes) => Ok(bytes),
        Err(Unread::Device(kind)) => Err(Failure::of_device(name, kind)),
        Err(Unread::Memory) => Err(Failure::from(RunFault::Memory)),
    }
}

/// The head of the record in the file of this name, if it comes within so many milliseconds, and
/// the lines behind it; `None` too where this is neither a file nor a FIFO.
///
/// # Errors
///
/// `Device` where the file cannot be opened or read; `Memory` if an allocation failed.
pub fn record_lines(
    rt: &HostRuntime,
    name: &str,
    milliseconds: u64,
) -> Result<Option<(FirstLines, AppendedLines)>, Failure>
    ensures fault { IfErr result IsReadingFault }
{
    match lines_in_time(rt, name, milliseconds) {
        Ok(found) => Ok(found),
        Err(DeviceFault::Device(_, kind)) => Err(Failure::of_device(name, kind)),
        Err(DeviceFault::Memory) => Err(Failure::from(RunFault::Memory)),
    }
}
