ghost use Rattle.std.specs.Prelude.{◌≡◌, ◌≤◌, ◌<◌, ◌^◌, ◌++◌, ℕ, Bool, List, Option};
ghost use Rattle.playback_core.specs.Placed.{IsPlaceAfter};
ghost use Rattle.playback_core.specs.Played.{Move, moves_by};
ghost use Rattle.desk_core.specs.Played.{moved_to};
ghost use Rattle.console.specs.Stands.{HasHistory, OfEach, StandsFor};
ghost use Rattle.console.specs.Spelling.{reading_of};
ghost use Rattle.cmd_play.specs.Run.{acts_after};
ghost use Rattle.live_input.specs.Told.{IsGiven};
ghost use Rattle.cmd_live.specs.Night.{trace_of};
ghost use Rattle.cmd_live.specs.Shown as shown;
ghost use Rattle.cmd_live.specs.Shown.{cue_lines, moves_behind, shown_answer};
ghost use Rattle.cmd_play.specs.Perform.{own_move};
ghost use Rattle.cmd_live.specs.Stands.{BoothCarriesOut, ShowsText, accepts_call};

use crate::booth::Booth;
use cmd_play::{Answer, perform};
use console::{Call, Console, cue_line};
use desk_core::{Command, Instruction};
use devices::Link;
use fade_core::Fader;
use live_input::GivenLine;
use playback_core::Place;
use show_core::Show;

// Records a line and carries it out, and shows its answer and the moves that came by it; how many
// packets were lost.
pub fn carry_out<F: Fader, B: Booth, L: Link>(
    console: &mut Console<F>,
    given: &GivenLine,
    booth: &mut B,
    link: &mut L,
) -> usize
    requires real { HasHistory F.stands_for console.old }
    requires spelled { (line : List ℕ) × IsGiven given.now line }
    ensures told_booth { B.tells booth.new → B.tells booth.old }
    ensures told_link { L.tells link.new → L.tells link.old }
    ensures few { result ≤ 16 }
    ensures stands { (line : List ℕ) → IsGiven given.now line
        → OfEach F.stands_for console.old (λ p history.
        StandsFor F.stands_for p console.new (acts_after p.show (reading_of line) history)) }
    ensures carried_out { (line : List ℕ) → IsGiven given.now line
        → OfEach F.stands_for console.old (λ p history. B.tells booth.new → L.tells link.new
        → BoothCarriesOut p history line (trace_of (B.state booth.old) (L.offered link.old))
        (trace_of (B.state booth.new) (L.offered link.new)) result) }
{
    let _ = booth.keep(given.text.as_slice(), link);
    let place = console.place();
    let performed = perform(console, given.moment, given.call, link);
    show_answer(&performed.answer, given.moment, booth, link);
    if is_accepted(&performed.answer) {
        let own = own_move(given.call, performed.current);
        show_moves(
            Moves { place, own },
            console.show(),
            given.moment,
            booth,
            link,
        );
    }
    performed.answer.packets_lost()
}

// Shows what a console answered, where the operator wants to see it.
fn show_answer<B: Booth, L: Link>(answer: &Answer, moment: u64, booth: &mut B, link: &L)
    ensures told { B.tells booth.new → B.tells booth.old }
    ensures shows { B.tells booth.new → ShowsText (L.offered link.now) (B.state booth.old)
        (B.state booth.new) (shown_answer moment answer.now) }
{
    if is_shown(answer) {
        let _ = booth.show(answer.line(moment).as_str().as_bytes(), link);
    }
}

fn is_accepted(answer: &Answer) -> bool
    ensures { result ≡ accepts_call answer.now }
{
    match answer {
        Answer::Refused(_) => false,
        _ => true,
    }
}

fn is_shown(answer: &Answer) -> bool
    ensures { result ≡ shown.is_shown answer.now }
{
    match answer {
        Answer::Ticked(_, _) => answer.packets_lost() > 0,
        _ => true,
    }
}

// The cue to which an accepted call moved, where it is a move: the one that is current behind it.
fn own_move(call: Call, current: Option<u32>) -> Option<u32>
    ensures { result ≡ own_move call current }
{
    match call {
        Call::Order(
            Instruction::Plain(Command::Go | Command::Back | Command::Goto(_))
            | Instruction::GotoIn { .. },
        ) => current,
        _ => None,
    }
}

// The moves that an accepted call makes: those that are due behind a place, and its own.
#[derive(Clone, Copy)]
struct Moves {
    place: Place,
    own: Option<u32>,
}

// Shows the moves that an accepted call made by its moment.
fn show_moves<B: Booth, L: Link>(due: Moves, show: &Show, moment: u64, booth: &mut B, link: &L)
    requires { moment < 2 ^ 48 }
    ensures told { B.tells booth.new → B.tells booth.old }
    ensures shows { (moves : List Move) (stopped : Bool) (time : Option ℕ)
        → IsPlaceAfter show.now due.place moves stopped → B.tells booth.new
        → ShowsText (L.offered link.now) (B.state booth.old) (B.state booth.new) (cue_lines
        (moves_behind moves (moved_to due.own moment time
        (moves_by show.now stopped moment moves)))) }
{
    show_follow_ons(due.place, show, moment, booth, link);
    if let Some(cue) = due.own {
        let _ = booth.show(cue_line(moment, cue).as_str().as_bytes(), link);
    }
}

// Shows the moves that are due by this moment.
fn show_follow_ons<B: Booth, L: Link>(
    mut place: Place,
    show: &Show,
    moment: u64,
    booth: &mut B,
    link: &L,
)
    requires { moment < 2 ^ 48 }
    ensures told { B.tells booth.new → B.tells booth.old }
    ensures shows { (newer : List Move) × ((moves : List Move) (stopped : Bool)
        → IsPlaceAfter show.now place moves stopped
        → moves_by show.now stopped moment moves ≡ newer ++ moves)
        × (B.tells booth.new → ShowsText (L.offered link.now) (B.state booth.old)
        (B.state booth.new) (cue_lines newer)) }
{
    while let Some((cue, at)) = place.follow(show, moment) {
        let _ = booth.show(cue_line(at, cue).as_str().as_bytes(), link);
    }
}
