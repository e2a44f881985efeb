//! What holds of every fader, since its levels are those that its starts make. The law is the
//! contract of a function that does nothing: call it where its fact is wanted.

ghost use Rattle.fade_core.specs.Laws.{FadesNeverTurnBack};

/// Between two starts each level goes towards its target, and never past it.
pub fn fades_never_turn_back()
    ensures { FadesNeverTurnBack }
{}
