ghost use Rattle.std.specs.Prelude.{◌≡◌, ◌≤◌};
ghost use Rattle.line_queue.specs.Entries.{capped_count};
ghost use Rattle.line_queue.specs.Owed.{are_one_file, file_length, outputs_owed_line, owed_bytes};
ghost use Rattle.line_queue.specs.Owed.{owed_by_outputs, record_owed_line};

use arrayvec::ArrayString;
use itoa::Buffer;

/// A file that another process writes.
#[derive(Clone, Copy, Debug, PartialEq, Eq)]
pub struct WrittenFile {
    /// The number of its device,
    pub device: u64,
    /// and its own there.
    pub number: u64,
    /// In bytes.
    pub length: u64,
}

/// The files of a night's outputs that other processes write.
#[derive(Clone, Copy, Debug, PartialEq, Eq)]
pub struct WrittenFiles {
    pub output: Option<WrittenFile>,
    pub error: Option<WrittenFile>,
}

/// How many bytes the writers of a night's outputs were given.
#[derive(Clone, Copy, Debug, PartialEq, Eq)]
pub struct GivenBytes {
    pub output: u64,
    pub error: u64,
}

/// A line about bytes that are owed: 20 digits and 45 bytes of words have room.
pub type OwedLine = ArrayString<72>;

/// How many bytes the writers of a night's outputs owe, up to 2^64 - 1, by their files before and
/// now, and the bytes that they were given since.
pub fn owed_by_outputs(before: WrittenFiles, given: GivenBytes, now: WrittenFiles) -> u64
    ensures { result ≡ capped_count (owed_by_outputs before given now) }
{
    let output = file_length(before.output);
    let (shown, told) = (u128::from(given.output), u128::from(given.error));
    if are_one_file(now.output, now.error) {
        return capped_count(file_owes(output, shown + told, now.output));
    }
    let shown = file_owes(output, shown, now.output);
    capped_count(shown + file_owes(file_length(before.error), told, now.error))
}

fn file_owes(before: u64, given: u128, now: Option<WrittenFile>) -> u128
    requires { given ≤ 36893488147419103230 }
    ensures bytes { result ≡ owed_bytes before given now }
    ensures few { result ≤ 55340232221128654845 }
{
    match now {
        Some(file) => (u128::from(before) + given).saturating_sub(file.length.into()),
        None => 0,
    }
}

fn capped_count(bytes: u128) -> u64
    ensures { result ≡ capped_count bytes }
{
    u64::try_from(bytes).unwrap_or(u64::MAX)
}

fn file_length(file: Option<WrittenFile>) -> u64
    ensures { result ≡ file_length file }
{
    match file {
        Some(file) => file.length,
        None => 0,
    }
}

fn are_one_file(one: Option<WrittenFile>, other: Option<WrittenFile>) -> bool
    ensures { result ≡ are_one_file one other }
{
    match (one, other) {
        (Some(one), Some(other)) => one.device == other.device && one.number == other.number,
        _ => false,
    }
}

/// The line about bytes that the writer of a record still owes at the end of a night.
pub fn record_owed_line(left: u64) -> OwedLine
    ensures { result.bytes ≡ record_owed_line left }
{
    let mut line = OwedLine::new();
    line.push_str("record: ");
    line.push_str(Buffer::new().format(left));
    line.push_str(" bytes are still with its writer\n");
    line
}

/// The line about bytes that the writers of a night's outputs still owe at its end.
pub fn outputs_owed_line(left: u64) -> OwedLine
    ensures { result.bytes ≡ outputs_owed_line left }
{
    let mut line = OwedLine::new();
    line.push_str("outputs: ");
    line.push_str(Buffer::new().format(left));
    line.push_str(" bytes are still with their writers\n");
    line
}
