ghost use Rattle.std.specs.Prelude.{◌≡◌, ◌≤◌, ◌+◌, ◌++◌, [], length, codes, decimal};
ghost use Rattle.std.specs.Prelude.{if◌then◌else◌};
ghost use Rattle.sacn_receiver.specs.declared.answer.Ignored.TheVariants as receiver;
ghost use Rattle.sacn_receiver.specs.Replies.{ignored_name, receiver_reply};

use crate::answer::{Ignored, Taken};
use arrayvec::ArrayString;
use itoa::Buffer;
use sacn_packet::Unreadable;

/// A printed line of a reply.
///
/// There is room for a number of 20 digits, ` ignored Unreadable FramingVector` and LF.
pub type ReplyLine = ArrayString<54>;

/// The line of the reply to a datagram, behind a number.
pub fn reply_line(number: u64, reply: Result<Taken, Ignored>) -> ReplyLine
    ensures { result.bytes ≡ decimal number ++ codes " " ++ receiver_reply reply ++ codes "\n" }
{
    let mut line = ReplyLine::new();
    line.push_str(Buffer::new().format(number));
    line.push_str(" ");
    push_reply(&mut line, reply);
    line.push_str("\n");
    line
}

fn push_reply(line: &mut ReplyLine, reply: Result<Taken, Ignored>)
    requires { length line.old.bytes ≤ 21 }
    ensures text { line.new.bytes ≡ line.old.bytes ++ receiver_reply reply }
    ensures room { length line.new.bytes ≤ length line.old.bytes + 32 }
{
    match reply {
        Ok(taken) => push_taken(line, taken),
        Err(reason) => {
            line.push_str("ignored ");
            line.push_str(reason_name(reason));
        }
    }
}

fn push_taken(line: &mut ReplyLine, taken: Taken)
    requires { length line.old.bytes ≤ 21 }
    ensures text { line.new.bytes ≡ line.old.bytes ++ receiver_reply (Ok taken) }
    ensures room { length line.new.bytes ≤ length line.old.bytes + 32 }
{
    line.push_str("taken ");
    line.push_str(Buffer::new().format(taken.sequence));
    line.push_str(ending(taken.terminated));
}

fn ending(terminated: bool) -> &'static str
    ensures text { result.now ≡ (if terminated then codes " terminated" else []) }
    ensures room { length result.now ≤ 11 }
{
    if terminated { " terminated" } else { "" }
}

fn reason_name(reason: Ignored) -> &'static str
    ensures name { result.now ≡ ignored_name reason }
    ensures room { length result.now ≤ 24 }
{
    match reason {
        Ignored::Backwards => "Backwards",
        Ignored::Unreadable(fault) => unreadable_name(fault),
        Ignored::OtherUniverse => "OtherUniverse",
        Ignored::Preview => "Preview",
        Ignored::AltStart => "AltStart",
        Ignored::OutOfSequence => "OutOfSequence",
        Ignored::SourcesFull => "SourcesFull",
    }
}

fn unreadable_name(fault: Unreadable) -> &'static str
    ensures name { result.now ≡ ignored_name (receiver.Unreadable fault) }
    ensures room { length result.now ≤ 24 }
{
    match fault {
        Unreadable::Short => "Unreadable Short",
        Unreadable::Preamble => "Unreadable Preamble",
        Unreadable::Identifier => "Unreadable Identifier",
        Unreadable::RootVector => "Unreadable RootVector",
        Unreadable::Length => "Unreadable Length",
        Unreadable::FramingVector => "Unreadable FramingVector",
        Unreadable::Priority => "Unreadable Priority",
        Unreadable::Universe => "Unreadable Universe",
        Unreadable::Dmp => "Unreadable Dmp",
        Unreadable::Count => "Unreadable Count",
    }
}
