ghost use Rattle.std.specs.Prelude.{◌≡◌, ◌⊎◌, ◌+◌, ◌≤◌, ◌<◌, List, ◌∷◌, length};
ghost use Rattle.std.specs.Prelude.{IfOk, IfErr, OnOk, None, Some, if◌then◌else◌};
ghost use Rattle.ascii_text.specs.Text.{words_of};
ghost use Rattle.show_line.specs.Keywords.{may_own};
ghost use Rattle.show_line.specs.Said.{desk_limits, record_opened};
ghost use Rattle.show_reader.specs.declared.fault.ShowFault.TheVariants as show_fault;
ghost use Rattle.show_reader.specs.Text.{Words, ends, lines_in, statements_of};
ghost use Rattle.show_reader.specs.Meaning.{is_skipped};
ghost use Rattle.show_reader.specs.Shows.{IsShowOf};
ghost use Rattle.show_reader.specs.Reading.{fault_at, text_fault, lines_read, lines_skipped};
ghost use Rattle.show_reader.specs.Reading.{NothingGrows};
ghost use Rattle.show_reader.specs.Reads.{Reads, EndsAt, refusal_at};

use crate::apply::{Refusal, apply};
use crate::draft::Draft;
use crate::fault::{LONGEST_TEXT, ShowFault};
use ascii_text::{Line, Lines};
use show_core::Show;
use show_line::{Keyword, LineFault, Record, Statement, read_line};
use std::alloc::Global;

/// A show that was read, and what its text had.
#[derive(Drop)]
#[derive_where(Debug)]
pub struct Loaded {
    /// The show that the text means.
    #[derive_where(skip)]
    pub show: Show,
    /// How many lines were read, that of ENDDATA included.
    pub lines: u32,
    /// How many of them were skipped.
    pub skipped: u32,
}

/// What has been made of the lines so far.
#[derive(Drop)]
pub struct Reader {
    pub draft: Draft,
    pub owner: Option<Record>,
    pub lines: u32,
    pub skipped: u32,
}

impl Refusal {
    // The refusal of a line of this number.
    fn at(self, line: u32) -> ShowFault
        ensures { result ≡ refusal_at line self }
    {
        match self {
            Refusal::Fault(fault) => fault_at(line, fault),
            Refusal::Memory => ShowFault::Memory,
        }
    }
}

fn fault_at(line: u32, fault: LineFault) -> ShowFault
    ensures { result ≡ fault_at line fault }
{
    match fault {
        LineFault::Ident => ShowFault::Ident(line),
        LineFault::MissingNumber => ShowFault::MissingNumber(line),
        LineFault::BadNumber => ShowFault::BadNumber(line),
        LineFault::BadLevel => ShowFault::BadLevel(line),
        LineFault::BadTime => ShowFault::BadTime(line),
        LineFault::HalfPair => ShowFault::HalfPair(line),
        LineFault::HalfTriple => ShowFault::HalfTriple(line),
        LineFault::Limit => ShowFault::Limit(line),
    }
}

fn is_skipped(statement: &Statement<'_>) -> bool
    ensures { result ≡ is_skipped statement.now }
{
    matches!(statement, Statement::Skipped)
}

// The record that owns the lines below a line: what that opens, if it may own; else its own owner,
// `above`.
fn owner_below(above: Option<Record>, keyword: Keyword, statement: &Statement<'_>) -> Option<Record>
    ensures { result ≡ if may_own keyword then record_opened statement.now else above }
{
    if keyword.may_own() {
        statement.opens()
    } else {
        above
    }
}

impl Reader {
    // Reads the next line, and tells whether it is the last.
    fn take(&mut self, line: Line<'_>) -> Result<bool, ShowFault>
        requires reads { (lines : List Words) × Reads lines self.old }
        requires next { line.number ≡ self.old.lines + 1 }
        ensures more { OnOk result ((lines : List Words) → Reads lines self.old
            → Reads (words_of line.entry.bytes.now ∷ lines) self.new) }
        ensures last { IfOk result (λ last. last ≡ ends (words_of line.entry.bytes.now)) }
        ensures fault { IfErr result (λ fault. (lines : List Words) → Reads lines self.old
            → EndsAt lines (words_of line.entry.bytes.now) fault) }
    {
        let number = line.number;
        let Some(reading) = read_line(self.owner, line.bytes) else {
            self.lines = number;
            return Ok(false);
        };
        let keyword = reading.keyword;
        let owner = owner_below(self.owner, keyword, &reading.statement);
        let skipped = is_skipped(&reading.statement);
        if let Err(refusal) = apply(&mut self.draft, reading.statement) {
            return Err(refusal.at(number));
        }
        self.owner = owner;
        self.lines = number;
        self.skipped += u32::from(skipped);
        Ok(keyword.is_end())
    }
}

// Reads the lines of a text that is not too long, up to ENDDATA.
fn read_lines(alloc: Global, text: &[u8]) -> Result<Reader, ShowFault>
    requires { length text.now ≤ 1048576 }
    ensures ok { IfOk result (Reads (lines_in text.now)) }
    ensures fault { IfErr result
        (λ fault. (fault ≡ show_fault.Memory) ⊎ (text_fault desk_limits text.now ≡ Some fault)) }
    ensures sure { NothingGrows desk_limits text.now
        → IfErr result (λ fault. text_fault desk_limits text.now ≡ Some fault) }
{
    let mut reader = Reader {
        draft: Draft::new(alloc),
        owner: None,
        lines: 0,
        skipped: 0,
    };
    for line in Lines::new(text) {
        match reader.take(line) {
            Ok(false) => {}
            Ok(true) => break,
            Err(fault) => return Err(fault),
        }
    }
    Ok(reader)
}

/// Reads a show text: the show that it means, and how many lines were read and skipped; or its
/// fault.
///
/// A text is lines that open with a keyword, with records of CUE, GROUP, SUB and PATCH (USITT ASCII
/// Text Representation for Lighting Console Data 3.0). It has at most [`LONGEST_TEXT`] bytes.
/// Reading ends with the first line whose first word is ENDDATA, or with the text.
///
/// # Errors
///
/// The fault of the first faulty line, as [`ShowFault`] lists them; `TooLong` before any line.
/// `Memory` is answered only if an allocation failed. No clause sees the memory that is left,
/// but a text of which no line above its first faulty one opens a record, lists a channel or
/// patches a dimmer is never answered so; that a reading at ample memory ends well is tested.
pub fn read_show(alloc: Global, text: &[u8]) -> Result<Loaded, ShowFault>
    ensures faultless { OnOk result (text_fault desk_limits text.now ≡ None) }
    ensures show { IfOk result (λ loaded.
        IsShowOf (statements_of desk_limits text.now) loaded.show) }
    ensures lines { IfOk result (λ loaded. loaded.lines ≡ lines_read desk_limits text.now) }
    ensures skipped { IfOk result (λ loaded. loaded.skipped ≡ lines_skipped desk_limits text.now) }
    ensures fault { IfErr result
        (λ fault. (fault ≡ show_fault.Memory) ⊎ (text_fault desk_limits text.now ≡ Some fault)) }
    ensures sure { NothingGrows desk_limits text.now
        → IfErr result (λ fault. text_fault desk_limits text.now ≡ Some fault) }
    ensures too_long { 1048576 < length text.now → result ≡ Err show_fault.TooLong }
{
    if text.len() > LONGEST_TEXT {
        return Err(ShowFault::TooLong);
    }
    let reader = read_lines(alloc, text)?;
    let Ok(show) = reader.draft.finish() else {
        return Err(ShowFault::Memory);
    };
    Ok(Loaded {
        show,
        lines: reader.lines,
        skipped: reader.skipped,
    })
}
