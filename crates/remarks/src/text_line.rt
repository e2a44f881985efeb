ghost use Rattle.std.specs.Prelude.{◌≡◌, ◌≤◌, length, option_map, take};
ghost use Rattle.remarks.specs.TextLines.{line_number, line_in, of_line, rule_of};
ghost use Rattle.remarks.specs.TextLines.{setup_remark, setup_rule, show_remark};

use crate::remark::{Remark, join, part, plain};
use ascii_text::Lines;
use rehearsal_faults::Fault;
use show_reader::ShowFault;

// No text that is read has more bytes.
const LONGEST: usize = 16_777_217;

/// The line of a show at which a fault is, and the rule that it breaks.
pub fn of_show(fault: ShowFault, text: &[u8]) -> Remark
    ensures { result.items ≡ show_remark fault text.now }
{
    match line_number(fault) {
        Some(number) => of_line(u64::from(number), text, rule_of(fault)),
        None => plain(rule_of(fault)),
    }
}

/// A line of a text by its number, from 1, and the rule that it breaks; the rule alone where the
/// text has no such line. Of the text 16,777,217 bytes are read.
pub fn of_line(number: u64, text: &[u8], rule: &str) -> Remark
    ensures { result.items ≡ of_line number text.now rule.now }
{
    match line_in(number, text) {
        Some(line) => join(&[b"`", line, b"`: ", part(rule)]),
        None => plain(rule),
    }
}

fn line_in<'a>(number: u64, text: &'a [u8]) -> Option<&'a [u8]>
    ensures { option_map (λ line. line.now) result ≡ line_in number text.now }
{
    for line in Lines::new(first_bytes(text)) {
        if u64::from(line.number) == number {
            return Some(line.bytes);
        }
    }
    None
}

fn first_bytes<'a>(text: &'a [u8]) -> &'a [u8]
    ensures bytes { result.now ≡ take 16777217 text.now }
    ensures room { length result.now ≤ 16777217 }
{
    &text[..text.len().min(LONGEST)]
}

fn line_number(fault: ShowFault) -> Option<u32>
    ensures { result ≡ line_number fault }
{
    match fault {
        ShowFault::TooLong | ShowFault::Memory => None,
        ShowFault::Ident(line)
        | ShowFault::MissingNumber(line)
        | ShowFault::BadNumber(line)
        | ShowFault::BadLevel(line)
        | ShowFault::BadTime(line)
        | ShowFault::HalfPair(line)
        | ShowFault::HalfTriple(line)
        | ShowFault::Limit(line) => Some(line),
    }
}

fn rule_of(fault: ShowFault) -> &'static str
    ensures { result.now ≡ rule_of fault }
{
    match fault {
        ShowFault::TooLong => "a show has at most 1048576 bytes",
        ShowFault::Ident(_) => "IDENT names version 3:0",
        ShowFault::MissingNumber(_) => {
            "CUE, GROUP, SUB and PATCH need a number; a line that times a cue needs a time"
        }
        ShowFault::BadNumber(_) => {
            "a number is 1 to 9 digits; a cue's is 0.001 to 9999.999, as 2.5"
        }
        ShowFault::BadLevel(_) => {
            "a level is a percent from 0 to 100, FL or FF, or H and one or two hex digits"
        }
        ShowFault::BadTime(_) => {
            "a time is seconds to 5999.99, as 2.5, or minutes and seconds to 99:59.99"
        }
        ShowFault::HalfPair(_) => "CHAN takes pairs of a channel and a level",
        ShowFault::HalfTriple(_) => {
            "PATCH takes a page, and triples of a channel, a dimmer and a level"
        }
        ShowFault::Limit(_) => {
            "a show has 2000 cues, channels to 4096, dimmers to 8192, 500 groups, 100 submasters"
        }
        ShowFault::Memory => "the system refused memory",
    }
}

/// What a rehearsal's consoles and receivers would be.
pub fn of_setup(fault: Fault) -> Remark
    ensures { result.items ≡ setup_remark fault }
{
    plain(setup_rule(fault))
}

fn setup_rule(fault: Fault) -> &'static str
    ensures { result.now ≡ setup_rule fault }
{
    match fault {
        Fault::Consoles => "a script has one to four consoles",
        Fault::Receivers => {
            "a script has at most eight receivers, each of its own universe, 1 to 63999"
        }
        Fault::NoShow => "a console plays the show that is given",
        Fault::Universe => "a base and the show's universes after it are 1 to 63999",
        Fault::Memory => "the system refused memory",
    }
}
