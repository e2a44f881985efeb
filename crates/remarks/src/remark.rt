ghost use Rattle.std.specs.Prelude.{◌≡◌, ◌++◌, [], ◌∷◌, codes, map, take};
ghost use Rattle.cmd_explain.specs.Skipped.{display_text};
ghost use Rattle.remarks.specs.Remarks.{excerpt, of_device, of_seeming, refused_line, remark_of};
ghost use Rattle.remarks.specs.Remarks.{seeming_line};

use arrayvec::ArrayVec;
use cmd_explain::display_byte;
use live_machine::reason;
use std::io::ErrorKind;

// Of a part so many bytes are shown.
const SHOWN: usize = 200;

/// What is told behind the line of a fault: what was found, and what would be right.
pub type Remark = ArrayVec<u8, 512>;

/// A remark that is this text.
pub fn plain(text: &str) -> Remark
    ensures { result.items ≡ remark_of (text.now ∷ []) }
{
    join(&[part(text)])
}

/// A remark that is these parts, one behind the other.
pub fn join(parts: &[&[u8]]) -> Remark
    ensures { result.items ≡ remark_of (map (λ part. part.now) parts.now) }
{
    let mut remark = Remark::new();
    for part in parts {
        push_shown(&mut remark, part);
    }
    remark
}

/// Where a device failed, by its name, and the system's reason.
pub fn of_device(name: &str, kind: ErrorKind) -> Remark
    ensures { result.items ≡ of_device name.now kind }
{
    with_words(name, reason(kind))
}

fn with_words(name: &str, words: &str) -> Remark
    ensures { result.items ≡ remark_of (name.now ∷ codes ": " ∷ words.now ∷ []) }
{
    join(&[part(name), b": ", part(words)])
}

/// What the file of a show without cues seems to be.
pub fn of_seeming(what: &str) -> Remark
    ensures { result.items ≡ of_seeming what.now }
{
    join(&[
        b"the show has no cue, and its file seems to be ",
        part(what),
        b": check the file's name and how it was saved",
    ])
}

/// The line of what the file of a show without cues seems to be.
pub fn seeming_line(what: &str) -> ArrayVec<u8, 513>
    ensures { result.items ≡ seeming_line what.now }
{
    with_line_feed(&of_seeming(what))
}

/// The line that tells that a typed line is not carried out, and why.
pub fn refused_line(text: &[u8], why: &str) -> ArrayVec<u8, 513>
    ensures { result.items ≡ refused_line text.now why.now }
{
    with_line_feed(&line_refusal(text, part(why)))
}

fn line_refusal(text: &[u8], why: &[u8]) -> Remark
    ensures { result.items
        ≡ remark_of (codes "line refused: " ∷ text.now ∷ codes ": " ∷ why.now ∷ []) }
{
    join(&[b"line refused: ", text, b": ", why])
}

fn with_line_feed(remark: &Remark) -> ArrayVec<u8, 513>
    ensures { result.items ≡ remark.now.items ++ codes "\n" }
{
    let mut line = ArrayVec::new();
    let _ = line.try_extend_from_slice(remark.as_slice());
    let _ = line.try_push(b'\n');
    line
}

/// A text as a part beside others.
pub(crate) fn part<'a>(text: &'a str) -> &'a [u8]
    ensures { result.now ≡ text.now }
{
    text.as_bytes()
}

/// Adds at most 200 bytes of a part: printable ASCII as it is, a tab and a CR as a space, and each
/// other byte as `?`; as many as there is room for.
pub fn push_shown(remark: &mut Remark, part: &[u8])
    ensures { remark.new.items ≡ take 512 (remark.old.items ++ excerpt part.now) }
{
    push_all(remark, first_bytes(part));
}

fn first_bytes<'a>(part: &'a [u8]) -> &'a [u8]
    ensures { result.now ≡ take 200 part.now }
{
    &part[..part.len().min(SHOWN)]
}

// Adds as many as there is room for.
fn push_all(remark: &mut Remark, bytes: &[u8])
    ensures { remark.new.items ≡ take 512 (remark.old.items ++ display_text bytes.now) }
{
    let room = remark.remaining_capacity();
    let fitting = &bytes[..bytes.len().min(room)];
    for byte in fitting {
        remark.push(display_byte(*byte));
    }
}
