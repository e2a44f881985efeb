ghost use Rattle.std.specs.Prelude.{◌≡◌, ◌≤◌, ◌+◌, ◌++◌, [], ◌∷◌, codes, length};
ghost use Rattle.hex.specs.Hex.{encode_lower};
ghost use Rattle.remarks.specs.Remarks.{remark_of};
ghost use Rattle.remarks.specs.Refusals.{IsUnfit, IsUnfitMain, Rejects, cid_parts, cid_rule};
ghost use Rattle.remarks.specs.Refusals.{has_night, in_use, line_rule};
ghost use Rattle.remarks.specs.Refusals.{main_line_rule, main_rule, name_parts, no_record};
ghost use Rattle.remarks.specs.Refusals.{night_over, number_parts, other_line, other_parts};
ghost use Rattle.remarks.specs.Refusals.{record_rule, refusal_line, shared_cid, show_parts};
ghost use Rattle.remarks.specs.Refusals.{spare_line_rule, unlike_line, use_rule};
ghost use Rattle.remarks.specs.TextLines.{of_line};

use crate::name::of_name;
use crate::remark::{Remark, join, part, plain};
use crate::text_line::of_line;
use arrayvec::ArrayString;
use itoa::Buffer;
use night_record::{Difference, RecordHead, Unfit, UnfitMain};
use uuid::Uuid;

const OTHER_FILE: &[u8] = b", or another FILE";

/// The line of a refusal: there is room for a name.
pub type RefusalLine = ArrayString<320>;

/// Why no night begins or goes on in a record: the line that is told first, with its LF, and what
/// is told of it behind that. The record is as it was.
#[derive(Debug, Drop)]
pub struct Refusal {
    pub line: RefusalLine,
    pub remark: Remark,
}

impl Refusal {
    /// The record has no head, or is no file.
    pub fn no_record() -> Refusal
        ensures { Rejects no_record (remark_of (record_rule ∷ [])) result }
    {
        by_rule(
            line_of("no record of live", "", ""),
            "a night goes on in a file that live began: its first line says whose it is",
        )
    }

    /// What was to be followed has no head, or is neither a file nor a FIFO.
    pub fn no_main() -> Refusal
        ensures { Rejects no_record (remark_of (main_rule ∷ [])) result }
    {
        by_rule(
            line_of("no record of live", "", ""),
            "a main's record is one that live keeps: its first line says whose it is",
        )
    }

    /// The main that was to be followed sends under the CID of this night.
    pub fn shared_cid() -> Refusal
        ensures { Rejects shared_cid (remark_of (cid_rule ∷ [])) result }
    {
        by_rule(
            line_of(
                "the same cid as --cid: a backup has a CID of its own",
                "",
                "",
            ),
            "uuidgen prints one",
        )
    }

    /// The main's record has come to the end of its night.
    pub fn main_is_over() -> Refusal
        ensures { Rejects night_over (remark_of (codes "a backup follows a night that is on" ∷ []))
            result }
    {
        by_rule(
            line_of("the night has ended", "", ""),
            "a backup follows a night that is on",
        )
    }

    /// Why a night does not go on in its own record.
    pub fn of_unfit(unfit: &Unfit, night: &RecordHead) -> Refusal
        ensures { IsUnfit unfit.now night.now result }
    {
        match unfit {
            Unfit::NoRecord => Refusal::no_record(),
            Unfit::Other(difference, head) => Refusal::other(*difference, head, night),
        }
    }

    /// Why a night does not follow the record of a main.
    pub fn of_unfit_main(unfit: &UnfitMain, night: &RecordHead) -> Refusal
        ensures { IsUnfitMain unfit.now night.now result }
    {
        match unfit {
            UnfitMain::NoRecord => Refusal::no_main(),
            UnfitMain::Other(difference, head) => Refusal::other(*difference, head, night),
            UnfitMain::SameCid => Refusal::shared_cid(),
        }
    }

    /// The line of this number of a main's record, from 1, is none that follows from those before
    /// it.
    pub fn main_line(number: u64) -> Refusal
        ensures { Rejects (unlike_line number) (remark_of (main_line_rule ∷ [])) result }
    {
        by_rule(
            unlike_line(number),
            "a night follows where each line is as live wrote it",
        )
    }

    /// A record with this head is of another night: in this they differ first.
    pub fn other(difference: Difference, head: &RecordHead, night: &RecordHead) -> Refusal
        ensures { Rejects (other_line difference)
            (remark_of (other_parts difference head.now night.now)) result }
    {
        match difference {
            Difference::Show => of_show(head, night),
            Difference::Cid => of_cid(head, night),
            Difference::Priority => {
                let (theirs, ours) = (u32::from(head.priority), u32::from(night.priority));
                of_number("priority", "--priority ", theirs, ours)
            }
            Difference::Base => {
                let (theirs, ours) = (u32::from(head.base), u32::from(night.base));
                of_number("base", "--base ", theirs, ours)
            }
            Difference::Name => of_source(head, night),
        }
    }

    /// The line of this number, from 1, is none that follows from those before it.
    pub fn line(number: u64, text: &[u8]) -> Refusal
        ensures { Rejects (unlike_line number) (of_line number text.now line_rule) result }
    {
        let rule = "a night goes on where each line is as live wrote it, and none is missing";
        Refusal {
            line: unlike_line(number),
            remark: of_line(number, text, rule),
        }
    }

    /// The line of this number of the record that a spare takes up, from 1, is none that follows
    /// from those before it.
    pub fn spare_line(number: u64) -> Refusal
        ensures { Rejects (unlike_line number) (remark_of (spare_line_rule ∷ [])) result }
    {
        by_rule(
            unlike_line(number),
            "a spare goes on where each line is as live wrote it, and none is missing",
        )
    }

    /// The night of the record came to its end.
    pub fn night_is_over() -> Refusal
        ensures { Rejects night_over (remark_of (codes "give another FILE for the next night" ∷ []))
            result }
    {
        by_rule(
            line_of("the night has ended", "", ""),
            "give another FILE for the next night",
        )
    }

    /// Another night is kept in this file, by this process where that is known.
    pub fn in_use(process: Option<u32>) -> Refusal
        ensures { Rejects (in_use process) (remark_of (use_rule ∷ [])) result }
    {
        by_rule(
            line_in_use(process),
            "lines of a night are written to it: end that night, or give another FILE",
        )
    }

    /// The night was to begin in a cue, and the file of this name has one that goes on elsewhere.
    pub fn has_night(file: &str) -> Refusal
        ensures { Rejects (has_night file.now) [] result }
    {
        let name = of_name(file);
        Refusal {
            line: line_of(
                name.as_str(),
                " has a night; without --start it goes on",
                "",
            ),
            remark: Remark::new(),
        }
    }
}

// By this line, with this rule behind it.
fn by_rule(line: RefusalLine, rule: &str) -> Refusal
    ensures line { result.line ≡ line }
    ensures remark { result.remark.items ≡ remark_of (rule.now ∷ []) }
{
    Refusal {
        line,
        remark: plain(rule),
    }
}

// The line with these three parts, one behind the other.
fn line_of(front: &str, middle: &str, back: &str) -> RefusalLine
    requires { length front.now + length middle.now + length back.now ≤ 300 }
    ensures { result.bytes ≡ refusal_line (front.now ++ middle.now ++ back.now) }
{
    let mut line = RefusalLine::new();
    line.push_str("record: ");
    line.push_str(front);
    line.push_str(middle);
    line.push_str(back);
    line.push_str("\n");
    line
}

fn line_in_use(process: Option<u32>) -> RefusalLine
    ensures { result.bytes ≡ refusal_line (in_use process) }
{
    match process {
        None => line_of("in use", "", ""),
        Some(process) => line_of("in use by", " process ", Buffer::new().format(process)),
    }
}

fn unlike_line(number: u64) -> RefusalLine
    ensures { result.bytes ≡ refusal_line (unlike_line number) }
{
    line_of(
        "line ",
        Buffer::new().format(number),
        " is none that live gives",
    )
}

fn of_show(head: &RecordHead, night: &RecordHead) -> Refusal
    ensures { Rejects (codes "another show") (remark_of (show_parts head.now night.now)) result }
{
    let (theirs, ours) = (digits(&head.show), digits(&night.show));
    let parts: [&[u8]; 6] = [
        b"the record is of the show with SHA-256 ",
        theirs.as_slice(),
        b", and SHOW has ",
        ours.as_slice(),
        b": give the show of the record",
        OTHER_FILE,
    ];
    Refusal {
        line: line_of("another show", "", ""),
        remark: join(&parts),
    }
}

fn of_cid(head: &RecordHead, night: &RecordHead) -> Refusal
    ensures { Rejects (codes "another cid") (remark_of (cid_parts head.now night.now)) result }
{
    let mut buffers = (Uuid::encode_buffer(), Uuid::encode_buffer());
    let theirs = Uuid::from_bytes(head.cid).hyphenated();
    let ours = Uuid::from_bytes(night.cid).hyphenated();
    let parts: [&[u8]; 6] = [
        b"the record has ",
        part(theirs.encode_lower(&mut buffers.0)),
        b", and the night ",
        part(ours.encode_lower(&mut buffers.1)),
        b": give the CID of the record",
        OTHER_FILE,
    ];
    Refusal {
        line: line_of("another cid", "", ""),
        remark: join(&parts),
    }
}

// The option of this number stands before its value.
fn of_number(name: &str, option: &str, theirs: u32, ours: u32) -> Refusal
    requires { length name.now ≤ 100 }
    ensures { Rejects (codes "another " ++ name.now)
        (remark_of (number_parts option.now theirs ours)) result }
{
    let mut buffers = (Buffer::new(), Buffer::new());
    let theirs = part(buffers.0.format(theirs));
    let ours = part(buffers.1.format(ours));
    let parts: [&[u8]; 8] = [
        b"the record has ",
        theirs,
        b", and the night ",
        ours,
        b": give ",
        part(option),
        theirs,
        OTHER_FILE,
    ];
    Refusal {
        line: line_of("another", " ", name),
        remark: join(&parts),
    }
}

fn of_source(head: &RecordHead, night: &RecordHead) -> Refusal
    ensures { Rejects (codes "another name") (remark_of (name_parts head.now night.now)) result }
{
    let parts: [&[u8]; 6] = [
        b"the record is of ",
        head.name.as_bytes(),
        b", and this is ",
        night.name.as_bytes(),
        b": give the --name of the record",
        OTHER_FILE,
    ];
    Refusal {
        line: line_of("another name", "", ""),
        remark: join(&parts),
    }
}

fn digits(show: &[u8; 32]) -> [u8; 64]
    ensures { result ≡ encode_lower show.now }
{
    let mut digits = [0; 64];
    let _ = hex::encode_to_slice(show, &mut digits);
    digits
}
