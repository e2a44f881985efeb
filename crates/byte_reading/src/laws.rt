//! What holds of every text. A law does nothing: its contract is the law.

ghost use Rattle.byte_reading.specs.ShortLines.{AllLinesLaw};

/// The lines that [`ShortLines`](crate::ShortLines) gives until nothing is left are those of the
/// whole text.
#[tactic(auto, using(crate::proofs::ShortText::all_lines))]
pub fn all_lines_law()
    ensures { AllLinesLaw }
{}
