ghost use Rattle.std.specs.Prelude.{◌≡◌, ◌+◌, ◌≤◌, drop, length};
ghost use Rattle.std.specs.List.{after_first, before_first, position_or_len};
ghost use Rattle.ascii_text.specs.Text.{is_bang, is_separator};
ghost use Rattle.cmd_cues.specs.Labels.{inner, is_edge, label_part, without_end};
ghost use Rattle.cmd_cues.specs.Labels.{without_front};

use crate::label_line::LabelKind;

/// The part of a line that is a label of this kind.
pub fn label_part<'a>(kind: LabelKind, line: &'a [u8]) -> &'a [u8]
    ensures { result.now ≡ label_part kind line.now }
{
    match kind {
        LabelKind::Text => inner(behind_word(inner(before_comment(line)))),
        LabelKind::Comment => inner(comment(line)),
    }
}

fn before_comment<'a>(line: &'a [u8]) -> &'a [u8]
    ensures { result.now ≡ before_first is_bang line.now }
{
    &line[..bang(line)]
}

fn comment<'a>(line: &'a [u8]) -> &'a [u8]
    ensures { result.now ≡ after_first is_bang line.now }
{
    behind(line, bang(line))
}

// What stands behind the first word, where the bytes begin with one.
fn behind_word<'a>(bytes: &'a [u8]) -> &'a [u8]
    ensures { result.now ≡ after_first is_separator bytes.now }
{
    behind(bytes, separator(bytes))
}

// What stands behind a place, nothing where that is the end.
fn behind<'a>(bytes: &'a [u8], place: usize) -> &'a [u8]
    requires { place ≤ length bytes.now }
    ensures { result.now ≡ drop (place + 1) bytes.now }
{
    if place < bytes.len() {
        &bytes[place + 1..]
    } else {
        &bytes[place..]
    }
}

// Where the first `!` stands, or the length.
fn bang(bytes: &[u8]) -> usize
    ensures place { result ≡ position_or_len is_bang bytes.now }
    ensures within { result ≤ length bytes.now }
{
    let mut end = 0;
    while end < bytes.len() && bytes[end] != b'!' {
        end += 1;
    }
    end
}

// Where the first separator stands, or the length.
fn separator(bytes: &[u8]) -> usize
    ensures place { result ≡ position_or_len is_separator bytes.now }
    ensures within { result ≤ length bytes.now }
{
    let mut end = 0;
    while end < bytes.len() && !is_separator(bytes[end]) {
        end += 1;
    }
    end
}

fn is_separator(byte: u8) -> bool
    ensures { result ≡ is_separator byte }
{
    matches!(
        byte,
        b'\t' | b'\r' | b'\x1a' | b' ' | b',' | b'/' | b';' | b'<' | b'=' | b'>' | b'@'
    )
}

fn is_edge(byte: u8) -> bool
    ensures { result ≡ is_edge byte }
{
    is_separator(byte) || byte == b'"'
}

fn inner<'a>(bytes: &'a [u8]) -> &'a [u8]
    ensures { result.now ≡ inner bytes.now }
{
    without_end(without_front(bytes))
}

fn without_front<'a>(bytes: &'a [u8]) -> &'a [u8]
    ensures { result.now ≡ without_front bytes.now }
{
    let mut start = 0;
    while start < bytes.len() && is_edge(bytes[start]) {
        start += 1;
    }
    &bytes[start..]
}

fn without_end<'a>(bytes: &'a [u8]) -> &'a [u8]
    ensures { result.now ≡ without_end bytes.now }
{
    let mut end = bytes.len();
    while end > 0 && is_edge(bytes[end - 1]) {
        end -= 1;
    }
    &bytes[..end]
}
