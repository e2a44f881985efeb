ghost use Rattle.std.specs.Prelude.{◌≡◌, ◌++◌, ◌∷◌, [], Some, None, MatchOption};
ghost use Rattle.night_record.specs.Opening.{head_in};

use crate::lines::LineFront;
use arrayvec::ArrayVec;
use memchr::memchr;

/// Two lines, the second without its LF.
pub type FirstLines = ArrayVec<u8, 403>;

/// The first two lines of a text without the last LF, where it has two that are whole.
pub fn head_in(text: &[u8]) -> Option<&[u8]>
    ensures { MatchOption result (head_in text.now ≡ None)
        (λ head. head_in text.now ≡ Some head.now) }
{
    let Some(first) = memchr(b'\n', text) else {
        return None;
    };
    let Some(second) = memchr(b'\n', &text[first + 1..]) else {
        return None;
    };
    Some(&text[..first + 1 + second])
}

/// Two lines that were given, without the last LF.
pub fn first_lines(first: &LineFront, second: &LineFront) -> FirstLines
    ensures { result.items ≡ first.now.items ++ 10 ∷ second.now.items }
{
    let mut lines = FirstLines::new();
    let _ = lines.try_extend_from_slice(first.as_slice());
    let _ = lines.try_push(b'\n');
    let _ = lines.try_extend_from_slice(second.as_slice());
    lines
}

/// A line as it is kept in a record, with its LF.
pub fn kept_line(line: &LineFront) -> ArrayVec<u8, 202>
    ensures { result.items ≡ line.now.items ++ 10 ∷ [] }
{
    let mut kept = ArrayVec::new();
    let _ = kept.try_extend_from_slice(line.as_slice());
    let _ = kept.try_push(b'\n');
    kept
}
