//! What holds of every night, whatever bytes came and whatever the clock said. Each law is the
//! contract of a function that does nothing: call it where its fact is wanted.

ghost use Rattle.live_input.specs.Laws.{AnswersAreSpelled, EndsAreAsked, EndsAreDark, EndsAreWhole};
ghost use Rattle.live_input.specs.Laws.{LinesAreFine};
ghost use Rattle.live_input.specs.Laws.{LinesComeInOrder};
ghost use Rattle.live_input.specs.Laws.{LinesFollowTicks, MomentsNeverFall, NightsEnd};
ghost use Rattle.live_input.specs.Laws.{TicksAreApart, TicksAreNext, TicksGoFirst, WaitsComeLast};
ghost use Rattle.live_input.specs.Laws.{EndsAreAccepted, RecordsAreRecalled, TicksAreAccepted};

/// `play` takes each line that is given: none is malformed, and none has more than 200 bytes.
pub fn lines_are_fine()
    ensures { LinesAreFine }
{}

/// A line that is given spells the command that was typed, `master 0`, `end` or a tick, at its
/// moment.
#[tactic(auto, using(crate::proofs::Fine::spelled))]
pub fn answers_are_spelled()
    ensures { AnswersAreSpelled }
{}

/// The moments of the lines that are given never fall.
#[tactic(auto, using(crate::proofs::Nights::moments_rise))]
pub fn moments_never_fall()
    ensures { MomentsNeverFall }
{}

/// Ticks are at least 23 ms apart.
#[tactic(auto, using(crate::proofs::Nights::ticks_rise))]
pub fn ticks_are_apart()
    ensures { TicksAreApart }
{}

/// The lines that were typed are answered each once, whole and in order.
#[tactic(auto, using(crate::proofs::Nights::begins))]
pub fn lines_come_in_order()
    ensures { LinesComeInOrder }
{}

/// It waits only where each line that was typed was answered.
pub fn waits_come_last()
    ensures { WaitsComeLast }
{}

/// A tick that is due goes before whatever lines wait, where the answer before was no tick and the
/// night is not to be closed.
#[tactic(auto, using(crate::proofs::Nights::ticks_first))]
pub fn ticks_go_first()
    ensures { TicksGoFirst }
{}

/// Between the moment at which a tick is due and the tick there is at most one line, and no other
/// tick, in every stage of a night.
#[tactic(auto, using(crate::proofs::Turns::ticks_next))]
pub fn ticks_are_next()
    ensures { TicksAreNext }
{}

/// A line that waits is the answer behind each tick, however late ticks are.
#[tactic(auto, using(crate::proofs::Nights::lines_follow))]
pub fn lines_follow_ticks()
    ensures { LinesFollowTicks }
{}

/// The lines that a night gives are a record that another night takes up whole: it gives each of
/// them again, and refuses none.
#[tactic(auto, using(crate::proofs::Records::records_recalled))]
pub fn records_are_recalled()
    ensures { RecordsAreRecalled }
{}

/// A night begins to end by itself only where it was to end with its input, which ended. Any other
/// night goes on.
pub fn ends_are_asked()
    ensures { EndsAreAsked }
{}

/// What is given from `master 0` on is four ticks, `end` and three ticks, and nothing else; where
/// the night was left, from `end` on three ticks, and nothing else.
#[tactic(auto, using(crate::proofs::Ending::ends_whole))]
pub fn ends_are_whole()
    ensures { EndsAreWhole }
{}

/// From `master 0` to `end` the grand master of a desk of any show is at 0.
#[tactic(auto, using(crate::proofs::Accepting::ends_dark))]
pub fn ends_are_dark()
    ensures { EndsAreDark }
{}

/// Nothing comes any more exactly where three ticks came after `end`.
#[tactic(auto, using(crate::proofs::Nights::over_is))]
pub fn nights_end()
    ensures { NightsEnd }
{}

/// A desk of any show accepts `end`, and counts the ticks after it as they are given.
#[tactic(auto, using(crate::proofs::Accepting::ends_accepted))]
pub fn ends_are_accepted()
    ensures { EndsAreAccepted }
{}

/// A desk of any show accepts each tick.
#[tactic(auto, using(crate::proofs::Accepting::ticks_accepted))]
pub fn ticks_are_accepted()
    ensures { TicksAreAccepted }
{}
