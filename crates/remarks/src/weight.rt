ghost use Rattle.std.specs.Prelude.{◌≡◌};
ghost use Rattle.remarks.specs.Weights.{IsStrictEnd, line_words, note_words, of_weight};

use crate::failure::JobFault;
use crate::remark::{Remark, join, part};
use cmd_explain::Weight;
use itoa::Buffer;

const SEE: &[u8] = b": see cueplayer explain";

/// How a strict check of a show with this weight ends.
///
/// # Errors
///
/// `Doubts` where it has notes of weight, or lines with an unknown keyword.
pub fn strict_end(weight: Weight) -> Result<(), JobFault>
    ensures { IsStrictEnd weight result }
{
    if weight.is_nothing() {
        Ok(())
    } else {
        Err(JobFault::Doubts(of_weight(weight)))
    }
}

/// What of a show may mean something else than is played.
pub fn of_weight(weight: Weight) -> Remark
    ensures { result.items ≡ of_weight weight }
{
    let mut buffers = (Buffer::new(), Buffer::new());
    let notes = part(buffers.0.format(weight.notes));
    let lines = part(buffers.1.format(weight.unknown_lines));
    let of_notes = part(note_words(weight.notes));
    let of_lines = part(line_words(weight.unknown_lines));
    if weight.notes == 0 {
        join(&[lines, of_lines, SEE])
    } else if weight.unknown_lines == 0 {
        join(&[notes, of_notes, SEE])
    } else {
        join(&[notes, of_notes, b", ", lines, of_lines, SEE])
    }
}

fn note_words(notes: u64) -> &'static str
    ensures { result.now ≡ note_words notes }
{
    if notes == 1 {
        " note of weight"
    } else {
        " notes of weight"
    }
}

fn line_words(lines: u32) -> &'static str
    ensures { result.now ≡ line_words lines }
{
    if lines == 1 {
        " line with an unknown keyword"
    } else {
        " lines with an unknown keyword"
    }
}
