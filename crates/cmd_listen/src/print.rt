ghost use Rattle.std.specs.Prelude.{◌≡◌, ◌≢◌, OnOk, OnErr, IfErr};
ghost use Rattle.devices.specs.Tape.{with_more, with_failure};
ghost use Rattle.cmd_listen.specs.Reading.{malformed, spelled_in};
ghost use Rattle.cmd_listen.specs.Stage.{EndsWatchAt, LastTold, LeftBy};
ghost use Rattle.cmd_listen.specs.Stands.{MonitorsStand};
ghost use Rattle.cmd_listen.specs.Watching.{WatchState, after_spelled, text_spelled};

use crate::fault::WatchFault;
use crate::line::{Line, read_line};
use crate::watching::Watching;
use devices::{LinkFault, Output};
use std::alloc::Global;

// Takes the line of a number, and prints what is told at it.
pub fn take_line<W: Output>(
    alloc: Global,
    watching: &mut Watching,
    number: u32,
    line: &[u8],
    out: &mut W,
) -> Result<(), WatchFault>
    ensures told { W.tells out.new → W.tells out.old }
    ensures fine { OnOk result (spelled_in line.now ≢ malformed) }
    ensures stands { OnOk result ((w : WatchState) → MonitorsStand watching.old w
        → MonitorsStand watching.new (after_spelled (spelled_in line.now) w)) }
    ensures printed { OnOk result ((w : WatchState) → MonitorsStand watching.old w → W.tells out.new
        → W.tape out.new ≡ with_more (W.tape out.old) (text_spelled (spelled_in line.now) w)) }
    ensures ends { IfErr result (λ fault. EndsWatchAt fault number (spelled_in line.now)) }
    ensures leaves { IfErr result (λ fault. W.tells out.new
        → LeftBy fault (W.tape out.old) (W.tape out.new)) }
{
    match read_line(alloc, line)? {
        Line::Blank => Ok(()),
        Line::Malformed => Err(WatchFault::Line(number)),
        Line::At(moment, datagram) => {
            let mut text = Vec::new(alloc);
            watching.take(moment, datagram.as_slice(), &mut text)?;
            print(text.as_slice(), out)?;
            Ok(())
        }
    }
}

// Prints what is told at the end of the lines.
pub fn take_end<W: Output>(
    alloc: Global,
    watching: &mut Watching,
    out: &mut W,
) -> Result<(), WatchFault>
    ensures told { W.tells out.new → W.tells out.old }
    ensures last { LastTold result watching.old (W.tells out.new) (W.tape out.old)
        (W.tape out.new) }
{
    let mut text = Vec::new(alloc);
    watching.close(&mut text)?;
    print(text.as_slice(), out)?;
    Ok(())
}

// Prints a text by one write, where it has a byte.
fn print<W: Output>(text: &[u8], out: &mut W) -> Result<(), LinkFault>
    ensures told { W.tells out.new → W.tells out.old }
    ensures ok { OnOk result (W.tells out.new
        → W.tape out.new ≡ with_more (W.tape out.old) text.now) }
    ensures err { OnErr result (W.tells out.new
        → W.tape out.new ≡ with_failure (W.tape out.old)) }
{
    if text.is_empty() {
        return Ok(());
    }
    out.write(text)
}
