ghost use Rattle.std.specs.Prelude.{◌≡◌, ◌≤◌};
ghost use Rattle.console.specs.Stands.{HasHistory, OfEach, StandsFor};
ghost use Rattle.console.specs.declared.reading.Reading.TheVariants.{At};
ghost use Rattle.cmd_play.specs.Run.{IsAnswered, acts_after};

use crate::performance::perform;
use console::{AnswerLine, Call, Console};
use devices::Link;
use fade_core::Fader;

// Carries a call out: the line to print of it, and how many packets were lost.
pub fn carry_out<F: Fader, L: Link>(
    console: &mut Console<F>,
    moment: u64,
    call: Call,
    link: &mut L,
) -> (AnswerLine, usize)
    requires real { HasHistory F.stands_for console.old }
    ensures stands { OfEach F.stands_for console.old (λ p history.
        StandsFor F.stands_for p console.new (acts_after p.show (At moment call) history)) }
    ensures told { L.tells link.new → L.tells link.old }
    ensures few { result.1 ≤ 16 }
    ensures answered { OfEach F.stands_for console.old (λ p history. L.tells link.new
        → IsAnswered p history (At moment call) (L.offered link.old) (L.offered link.new)
        result.0.bytes result.1) }
{
    let performed = perform(console, moment, call, link);
    (
        performed.answer.line(moment),
        performed.answer.packets_lost(),
    )
}
