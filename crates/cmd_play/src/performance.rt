ghost use Rattle.std.specs.Prelude.{◌≡◌, ◌≤◌, count_by};
ghost use Rattle.playback_core.specs.Played.{current_after};
ghost use Rattle.desk_core.specs.Played.{moves};
ghost use Rattle.console.specs.Stands.{HasHistory, OfEach, StandsFor};
ghost use Rattle.console.specs.declared.reading.Reading.TheVariants.{At};
ghost use Rattle.cmd_play.specs.Lost.{is_lost};
ghost use Rattle.cmd_play.specs.Perform.{Performs, lost_of, text_of_answer};
ghost use Rattle.cmd_play.specs.Run.{acts_after};

use console::{AnswerLine, Call, Console, Offers, done_line, refused_line, ticked_line};
use desk_core::{Refused, Ticked};
use devices::Link;
use fade_core::Fader;
use sacn_source::Offered;

/// What a console answers to a call.
#[derive(Debug, Drop)]
pub enum Answer {
    /// The order is carried out.
    Done,
    /// The call is refused, and changed nothing.
    Refused(Refused),
    /// The tick is carried out, and this became of its offers.
    Ticked(Ticked, Offers),
}

/// A call that was carried out or refused.
#[derive(Debug, Drop)]
pub struct Performed {
    /// What the console answered.
    pub answer: Answer,
    /// The current cue after the call, in thousandths.
    pub current: Option<u32>,
}

impl Answer {
    /// How many of the offers were lost.
    pub fn packets_lost(&self) -> usize
        ensures count { result ≡ lost_of self.now }
        ensures few { result ≤ 16 }
    {
        match self {
            Answer::Ticked(_, offers) => lost_in(offers),
            _ => 0,
        }
    }

    /// The line to print of it, behind the moment of its call.
    pub fn line(&self, moment: u64) -> AnswerLine
        ensures { result.bytes ≡ text_of_answer moment self.now }
    {
        match self {
            Answer::Done => done_line(moment),
            Answer::Refused(refused) => refused_line(moment, *refused),
            Answer::Ticked(ticked, offers) => ticked_line(moment, *ticked, offers),
        }
    }
}

/// Carries out a call: a tick offers to the link what is due.
///
/// A console that is called stands for some history: a new one for the empty one.
pub fn perform<F: Fader, L: Link>(
    console: &mut Console<F>,
    moment: u64,
    call: Call,
    link: &mut L,
) -> Performed
    requires real { HasHistory F.stands_for console.old }
    ensures stands { OfEach F.stands_for console.old (λ p history.
        StandsFor F.stands_for p console.new (acts_after p.show (At moment call) history)) }
    ensures performed { OfEach F.stands_for console.old (λ p history. L.tells link.new
        → Performs p history moment call (L.offered link.old) (L.offered link.new) result.answer) }
    ensures current { OfEach F.stands_for console.old (λ p history. result.current
        ≡ current_after (moves p.show (acts_after p.show (At moment call) history))) }
    ensures told { L.tells link.new → L.tells link.old }
{
    let answer = answer_call(console, moment, call, link);
    Performed {
        answer,
        current: console.current(),
    }
}

fn answer_call<F: Fader, L: Link>(
    console: &mut Console<F>,
    moment: u64,
    call: Call,
    link: &mut L,
) -> Answer
    requires real { HasHistory F.stands_for console.old }
    ensures stands { OfEach F.stands_for console.old (λ p history.
        StandsFor F.stands_for p console.new (acts_after p.show (At moment call) history)) }
    ensures performed { OfEach F.stands_for console.old (λ p history. L.tells link.new
        → Performs p history moment call (L.offered link.old) (L.offered link.new) result) }
    ensures told { L.tells link.new → L.tells link.old }
{
    match call {
        Call::Order(instruction) => match console.order(moment, instruction) {
            Ok(()) => Answer::Done,
            Err(refused) => Answer::Refused(refused),
        },
        Call::Tick => match console.tick(moment, link) {
            Ok((ticked, offers)) => Answer::Ticked(ticked, offers),
            Err(refused) => Answer::Refused(refused),
        },
    }
}

// How many of the offers were lost.
fn lost_in(offers: &Offers) -> usize
    ensures count { result ≡ count_by (λ offer. is_lost offer.1) offers.now }
    ensures few { result ≤ 16 }
{
    let offers = offers.pairs();
    offers
        .iter()
        .filter(|(_, offered)| matches!(offered, Offered::Lost(_)))
        .count()
}
