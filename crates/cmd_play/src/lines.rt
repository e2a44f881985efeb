ghost use Rattle.std.specs.Prelude.{[], IfOk, IfErr};
ghost use Rattle.console.specs.Stands.{StandsFor};
ghost use Rattle.console.specs.Streams.{Production};
ghost use Rattle.cmd_play.specs.Play.{PlayEndsEarly, PlaysAll};
ghost use Rattle.cmd_play.specs.Run.{emission};

use crate::fault::PlayFault;
use crate::stage::Stage;
use arrayvec::ArrayVec;
use console::Console;
use devices::{Feed, Link, Output};
use fade_core::Fader;

// Plays the lines of an input, and answers how many packets were lost.
pub fn play_lines<F: Fader, R: Feed, L: Link, W: Output>(
    console: Console<F>,
    input: &mut R,
    link: &mut L,
    out: &mut W,
) -> Result<u64, PlayFault>
    requires real { (p : Production) × StandsFor F.stands_for p console [] }
    ensures told_input { R.tells input.new → R.tells input.old }
    ensures told_link { L.tells link.new → L.tells link.old }
    ensures told_output { W.tells out.new → W.tells out.old }
    ensures all { IfOk result (λ lost. (p : Production) → StandsFor F.stands_for p console []
        → R.tells input.new → L.tells link.new → W.tells out.new
        → PlaysAll p (R.ended input.new) (R.tape input.old) (R.tape input.new)
        (emission (L.offered link.old) (W.tape out.old))
        (emission (L.offered link.new) (W.tape out.new)) lost) }
    ensures ends { IfErr result (λ fault. (p : Production) → StandsFor F.stands_for p console []
        → R.tells input.new → L.tells link.new → W.tells out.new
        → PlayEndsEarly p fault (R.ended input.new) (R.tape input.old) (R.tape input.new)
        (emission (L.offered link.old) (W.tape out.old))
        (emission (L.offered link.new) (W.tape out.new))) }
{
    let mut stage = Stage {
        console,
        pending: ArrayVec::new(),
        number: 0,
        lost: 0,
    };
    stage.take_input(input, link, out)
}
