ghost use Rattle.std.specs.Prelude.{◌≡◌, ◌≤◌, false, OnOk, IfOk, IfErr};
ghost use Rattle.console.specs.Stands.{HasHistory, OfEach, StandsFor};
ghost use Rattle.console.specs.Spelling.{is_malformed, reading_of};
ghost use Rattle.cmd_play.specs.Run.{CarriesOut, emission, acts_after};
ghost use Rattle.cmd_play.specs.Stage.{EndsPlayAt, LeavesLine};

use crate::carry::carry_out;
use crate::fault::PlayFault;
use console::{Console, Reading, read_call};
use devices::{Link, Output};
use fade_core::Fader;

// Carries out the line of a number, and answers how many packets were lost.
pub fn take_line<F: Fader, L: Link, W: Output>(
    console: &mut Console<F>,
    number: u32,
    line: &[u8],
    link: &mut L,
    out: &mut W,
) -> Result<usize, PlayFault>
    requires real { HasHistory F.stands_for console.old }
    ensures told_link { L.tells link.new → L.tells link.old }
    ensures told_output { W.tells out.new → W.tells out.old }
    ensures fine { OnOk result (is_malformed (reading_of line.now) ≡ false) }
    ensures stands { OnOk result (OfEach F.stands_for console.old (λ p history.
        StandsFor F.stands_for p console.new (acts_after p.show (reading_of line.now) history))) }
    ensures few { IfOk result (λ lost. lost ≤ 16) }
    ensures carried_out { IfOk result (λ lost. OfEach F.stands_for console.old (λ p history.
        L.tells link.new → W.tells out.new
        → CarriesOut p history (reading_of line.now)
        (emission (L.offered link.old) (W.tape out.old))
        (emission (L.offered link.new) (W.tape out.new)) lost)) }
    ensures ends { IfErr result (λ fault. EndsPlayAt fault number (reading_of line.now)) }
    ensures leaves { IfErr result (λ fault. OfEach F.stands_for console.old (λ p history.
        L.tells link.new → W.tells out.new
        → LeavesLine fault p history (reading_of line.now)
        (emission (L.offered link.old) (W.tape out.old))
        (emission (L.offered link.new) (W.tape out.new)))) }
{
    match read_call(line) {
        Reading::Blank => Ok(0),
        Reading::Malformed => Err(PlayFault::Line(number)),
        Reading::At(moment, call) => {
            let (text, lost) = carry_out(console, moment, call, link);
            out.write(text.as_str().as_bytes())?;
            Ok(lost)
        }
    }
}
