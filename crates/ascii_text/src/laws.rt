//! What holds of every input. A law does nothing: its contract is the law.

ghost use Rattle.std.specs.Prelude.{ℕ, List};
ghost use Rattle.ascii_text.specs.Lines.{LinesAreOfInput};

/// The lines into which an input is cut byte by byte are those of its whole text, as `ascii_text`
/// parts them.
pub fn lines_are_of_input()
    ensures { (bytes : List ℕ) → LinesAreOfInput bytes }
{}
