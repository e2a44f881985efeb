ghost use Rattle.std.specs.Prelude.{◌≡◌, IfOk};
ghost use Rattle.night_record.specs.RecordKinds.{failed_read, is_opened_to_write, is_still_there};
ghost use Rattle.night_record.specs.RecordKinds.{kind_of_record, next_read};

use std::io::ErrorKind;

/// What a record is that another process writes.
#[derive(Clone, Copy, Debug, PartialEq, Eq)]
pub enum RecordKind {
    /// A regular file: what stands in it can be read again.
    File,
    /// A FIFO: it gives each byte once.
    Fifo,
}

/// How a record is read.
#[derive(Clone, Copy, Debug, PartialEq, Eq)]
pub enum RecordRead {
    /// Behind the bytes that are had of it.
    AtPlace,
    /// What comes next.
    Onward,
    /// Not at all: nothing is there.
    Nothing,
}

impl RecordKind {
    /// What a name leads to, where a record can be that: a FIFO or a regular file.
    pub fn of(is_regular: bool, is_fifo: bool) -> Option<RecordKind>
        ensures { result ≡ kind_of_record is_regular is_fifo }
    {
        match (is_regular, is_fifo) {
            (_, true) => Some(RecordKind::Fifo),
            (true, false) => Some(RecordKind::File),
            (false, false) => None,
        }
    }

    /// Whether it is opened for writing too. A FIFO is: so that takes no time, and it never ends.
    pub fn is_opened_to_write(self) -> bool
        ensures { result ≡ is_opened_to_write self }
    {
        self == RecordKind::Fifo
    }

    /// How it is read next, by whether a FIFO says that something is there.
    pub fn next_read(self, is_ready: Option<bool>) -> RecordRead
        ensures { result ≡ next_read self is_ready }
    {
        match (self, is_ready) {
            (RecordKind::File, _) => RecordRead::AtPlace,
            (RecordKind::Fifo, Some(true)) => RecordRead::Onward,
            (RecordKind::Fifo, _) => RecordRead::Nothing,
        }
    }

    /// Whether it is still there, by whether its name leads to it, and how many bytes stand in it:
    /// a file has those that were given of it.
    pub fn is_there(self, is_named: bool, length: u64, given: u64) -> bool
        ensures { result ≡ is_still_there self is_named length given }
    {
        is_named && (self == RecordKind::Fifo || given <= length)
    }
}

/// How many bytes a read brought that failed for this reason: none where it was interrupted.
///
/// # Errors
///
/// The reason otherwise.
pub fn count_of_failed_read(kind: ErrorKind) -> Result<usize, ErrorKind>
    ensures count { result ≡ failed_read kind }
    ensures none { IfOk result (λ count. count ≡ 0) }
{
    match kind {
        ErrorKind::Interrupted => Ok(0),
        kind => Err(kind),
    }
}
