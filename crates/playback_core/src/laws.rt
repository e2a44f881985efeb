//! What holds of every playback, since its levels are those that its moves make. Each law is the
//! contract of a function that does nothing: call it where its fact is wanted.

ghost use Rattle.playback_core.specs.Laws.{NoneIsLeftDue, PlaybacksNeverTurnBack};

/// Between two moves each level goes towards that of the current cue, and never past it.
pub fn playbacks_never_turn_back()
    ensures { PlaybacksNeverTurnBack }
{}

/// The moves due by a moment are all of them: after these, the next one is due later.
pub fn none_is_left_due()
    ensures { NoneIsLeftDue }
{}
