//! What holds of every input. A law does nothing: its contract is the law.

ghost use Rattle.cmd_listen.specs.Laws.{SourcesAreLive};

/// The sources of a universe are the live records of the source rule, whatever came.
#[tactic(auto, using(crate::proofs::LivingLines::sources_live))]
pub fn sources_are_live()
    ensures { SourcesAreLive }
{}
