ghost use Rattle.std.specs.Prelude.{◌≡◌, ◌≤◌, ◌+◌, ◌++◌, length, codes};
ghost use Rattle.console.specs.Texts.{moment_line, refused_name, done_text, refused_text};
ghost use Rattle.console.specs.Texts.{outcome_text, pair_text, ticked_name, ticked_text};

use crate::offers::Offers;
use arrayvec::ArrayString;
use desk_core::{Refused, Ticked};
use itoa::Buffer;
use sacn_source::Offered;

/// A printed line: a number, an answer, and LF.
///
/// There is room for a number of 20 digits, a space, `ending ` and three digits, 16 offers of a
/// space, five digits, a colon, a letter and three digits, and LF.
pub type AnswerLine = ArrayString<208>;

/// The line of an accepted command.
pub fn done_line(number: u64) -> AnswerLine
    ensures { result.bytes ≡ moment_line number done_text }
{
    let mut line = AnswerLine::new();
    line.push_str(Buffer::new().format(number));
    line.push_str(" ok\n");
    line
}

/// The line of a command or a tick that was refused.
pub fn refused_line(number: u64, refused: Refused) -> AnswerLine
    ensures { result.bytes ≡ moment_line number (refused_text refused) }
{
    reason_line(number, "refused", refused_name(refused))
}

/// The line of what was not done: a word that says so, and the name of the reason.
pub fn reason_line(number: u64, word: &str, reason: &str) -> AnswerLine
    requires { length word.now + length reason.now ≤ 185 }
    ensures { result.bytes ≡ moment_line number (word.now ++ codes " " ++ reason.now) }
{
    let mut line = AnswerLine::new();
    line.push_str(Buffer::new().format(number));
    line.push_str(" ");
    line.push_str(word);
    line.push_str(" ");
    line.push_str(reason);
    line.push_str("\n");
    line
}

/// The line of an accepted tick and its offers.
pub fn ticked_line(number: u64, ticked: Ticked, offers: &Offers) -> AnswerLine
    ensures { result.bytes ≡ moment_line number (ticked_text ticked offers.now) }
{
    let mut line = AnswerLine::new();
    line.push_str(Buffer::new().format(number));
    push_ticked(&mut line, ticked);
    for (universe, offered) in offers.pairs() {
        push_pair(&mut line, *universe, *offered);
    }
    line.push_str("\n");
    line
}

fn refused_name(refused: Refused) -> &'static str
    ensures name { result.now ≡ refused_name refused }
    ensures room { length result.now ≤ 14 }
{
    match refused {
        Refused::Backwards => "Backwards",
        Refused::MomentTooLarge => "MomentTooLarge",
        Refused::Ended => "Ended",
        Refused::TooSoon => "TooSoon",
        Refused::AtEnd => "AtEnd",
        Refused::AtStart => "AtStart",
        Refused::NoCue => "NoCue",
        Refused::NoSub => "NoSub",
        Refused::NoGroup => "NoGroup",
    }
}

fn push_ticked(line: &mut AnswerLine, ticked: Ticked)
    requires { length line.old.bytes ≤ 20 }
    ensures text { line.new.bytes ≡ line.old.bytes ++ codes " " ++ ticked_name ticked }
    ensures room { length line.new.bytes ≤ length line.old.bytes + 11 }
{
    match ticked {
        Ticked::Live => line.push_str(" live"),
        Ticked::Ending(number) => {
            line.push_str(" ending ");
            line.push_str(Buffer::new().format(number));
        }
    }
}

fn push_pair(line: &mut AnswerLine, universe: u16, offered: Offered)
    requires { length line.old.bytes ≤ 196 }
    ensures text { line.new.bytes ≡ line.old.bytes ++ pair_text (universe, offered) }
    ensures room { length line.new.bytes ≤ length line.old.bytes + 11 }
{
    line.push_str(" ");
    line.push_str(Buffer::new().format(universe));
    push_outcome(line, offered);
}

fn push_outcome(line: &mut AnswerLine, offered: Offered)
    requires { length line.old.bytes ≤ 203 }
    ensures text { line.new.bytes ≡ line.old.bytes ++ outcome_text offered }
    ensures room { length line.new.bytes ≤ length line.old.bytes + 5 }
{
    match offered {
        Offered::Sent(number) => {
            line.push_str(":s");
            line.push_str(Buffer::new().format(number));
        }
        Offered::Lost(number) => {
            line.push_str(":x");
            line.push_str(Buffer::new().format(number));
        }
        Offered::Quiet => line.push_str(":-"),
    }
}
