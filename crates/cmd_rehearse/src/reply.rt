ghost use Rattle.std.specs.Prelude.{◌≡◌, ◌≤◌, length};
ghost use Rattle.console.specs.Texts.{done_text, moment_line, refused_text, ticked_text};
ghost use Rattle.sacn_receiver.specs.Replies.{receiver_reply as datagram_text, lit_slots_text};
ghost use Rattle.cmd_rehearse.specs.Printed.{PrintsLine};
ghost use Rattle.cmd_rehearse.specs.Texts.{event_line, skip_name, skip_text};

use console::{Offers, done_line, reason_line, refused_line, ticked_line};
use desk_core::{Refused, Ticked};
use devices::{LinkFault, Output};
use sacn_packet::Slots;
use sacn_receiver::{Ignored, SlotsLine, Taken, reply_line, write_numbered_slots};
use wire_world::{CompactReply, Reply, Skip};

// Prints the reply to an event by one write, behind the number of the event's line.
pub(crate) fn print_reply<W: Output>(
    number: u32,
    reply: &CompactReply,
    out: &mut W,
) -> Result<(), LinkFault>
    ensures { PrintsLine W.tells W.tape result (event_line (number, reply.now)) out.old out.new }
{
    let number = u64::from(number);
    match reply.reply() {
        Reply::Done => print_done(number, out),
        Reply::Refused(refused) => print_refused(number, refused, out),
        Reply::Ticked(ticked, offers) => print_ticked(number, ticked, &offers, out),
        Reply::Taken(taken) => print_taken(number, Ok(taken), out),
        Reply::Ignored(reason) => print_taken(number, Err(reason), out),
        Reply::Shown(slots) => print_slots(number, &slots, out),
        Reply::Skipped(skip) => print_skipped(number, skip, out),
    }
}

// Each kind of reply is printed by a call, so that none waits until the lines of the others are
// cleared.

#[inline(never)]
fn print_done<W: Output>(number: u64, out: &mut W) -> Result<(), LinkFault>
    ensures { PrintsLine W.tells W.tape result (moment_line number done_text) out.old out.new }
{
    out.write(done_line(number).as_str().as_bytes())
}

#[inline(never)]
fn print_refused<W: Output>(number: u64, refused: Refused, out: &mut W) -> Result<(), LinkFault>
    ensures { PrintsLine W.tells W.tape result (moment_line number (refused_text refused))
        out.old out.new }
{
    out.write(refused_line(number, refused).as_str().as_bytes())
}

#[inline(never)]
fn print_ticked<W: Output>(
    number: u64,
    ticked: Ticked,
    offers: &Offers,
    out: &mut W,
) -> Result<(), LinkFault>
    ensures { PrintsLine W.tells W.tape result (moment_line number (ticked_text ticked offers.now))
        out.old out.new }
{
    out.write(ticked_line(number, ticked, offers).as_str().as_bytes())
}

#[inline(never)]
fn print_taken<W: Output>(
    number: u64,
    reply: Result<Taken, Ignored>,
    out: &mut W,
) -> Result<(), LinkFault>
    ensures { PrintsLine W.tells W.tape result (moment_line number (datagram_text reply))
        out.old out.new }
{
    out.write(reply_line(number, reply).as_str().as_bytes())
}

#[inline(never)]
fn print_slots<W: Output>(number: u64, slots: &Slots, out: &mut W) -> Result<(), LinkFault>
    ensures { PrintsLine W.tells W.tape result (moment_line number (lit_slots_text slots.now))
        out.old out.new }
{
    let mut line = SlotsLine::new();
    write_numbered_slots(&mut line, number, slots);
    out.write(line.as_str().as_bytes())
}

#[inline(never)]
fn print_skipped<W: Output>(number: u64, skip: Skip, out: &mut W) -> Result<(), LinkFault>
    ensures { PrintsLine W.tells W.tape result (moment_line number (skip_text skip))
        out.old out.new }
{
    let line = reason_line(number, "skipped", skip_name(skip));
    out.write(line.as_str().as_bytes())
}

fn skip_name(skip: Skip) -> &'static str
    ensures name { result.now ≡ skip_name skip }
    ensures room { length result.now ≤ 10 }
{
    match skip {
        Skip::Backwards => "Backwards",
        Skip::TooLarge => "TooLarge",
        Skip::NoConsole => "NoConsole",
        Skip::NoReceiver => "NoReceiver",
        Skip::NotSent => "NotSent",
    }
}
