ghost use Rattle.std.specs.Prelude.{◌≤◌, length};
ghost use Rattle.cmd_rehearse.specs.Texts.{end_lines, event_lines, rehearsal_lines};
ghost use Rattle.cmd_rehearse.specs.Printed.{PrintsLines};

use crate::reply::print_reply;
use devices::{LinkFault, Output};
use sacn_packet::Slots;
use sacn_receiver::end_line;
use wire_world::{CompactReply, CompactReport};

// Prints what came of a script, line by line.
pub(crate) fn print_lines<W: Output>(
    numbers: &[u32],
    report: &CompactReport,
    out: &mut W,
) -> Result<(), LinkFault>
    requires { length report.now.last ≤ 8 }
    ensures told { W.tells out.new → W.tells out.old }
    ensures lines { W.tells out.new → PrintsLines result
        (rehearsal_lines numbers.now report.now.replies report.now.last)
        (W.tape out.old) (W.tape out.new) }
{
    print_replies(numbers, report.replies.as_slice(), out)?;
    print_ends(report.last.as_slice(), out)
}

// Prints the replies to the events, each behind the number of its line.
fn print_replies<W: Output>(
    numbers: &[u32],
    replies: &[CompactReply],
    out: &mut W,
) -> Result<(), LinkFault>
    ensures told { W.tells out.new → W.tells out.old }
    ensures lines { W.tells out.new
        → PrintsLines result (event_lines numbers.now replies.now)
        (W.tape out.old) (W.tape out.new) }
{
    for (number, reply) in numbers.iter().zip(replies) {
        print_reply(*number, reply, out)?;
    }
    Ok(())
}

// Prints the slots of the receivers, each by one write.
fn print_ends<W: Output>(last: &[Slots], out: &mut W) -> Result<(), LinkFault>
    requires { length last.now ≤ 8 }
    ensures told { W.tells out.new → W.tells out.old }
    ensures lines { W.tells out.new
        → PrintsLines result (end_lines last.now) (W.tape out.old) (W.tape out.new) }
{
    for (receiver, slots) in last.iter().enumerate() {
        out.write(end_line(receiver as u16, slots).as_str().as_bytes())?;
    }
    Ok(())
}
