ghost use Rattle.std.specs.Prelude.{◌≡◌, ◌≤◌, ◌==◌, length, false, slice_index_or};
ghost use Rattle.std.specs.List.{position_or_len, prefix_len};
ghost use Rattle.ascii_text.specs.Text.{is_separator, is_word_end};

use memchr::memchr;

// Where `mark` first stands, or the length.
pub(crate) fn position_or_len(bytes: &[u8], mark: u8) -> usize
    ensures place { result ≡ position_or_len (λ b. b == mark) bytes.now }
    ensures within { result ≤ length bytes.now }
{
    memchr(mark, bytes).unwrap_or(bytes.len())
}

// Which bytes end a word: the separators, and the `!` of a comment. A text is mostly words, and
// each of its bytes is looked up.
const WORD_ENDS: [bool; 256] = [
    false, false, false, false, false, false, false, false, false, true, false, false, false, true,
    false, false, false, false, false, false, false, false, false, false, false, false, true,
    false, false, false, false, false, true, true, false, false, false, false, false, false, false,
    false, false, false, true, false, false, true, false, false, false, false, false, false, false,
    false, false, false, false, true, true, true, true, false, true, false, false, false, false,
    false, false, false, false, false, false, false, false, false, false, false, false, false,
    false, false, false, false, false, false, false, false, false, false, false, false, false,
    false, false, false, false, false, false, false, false, false, false, false, false, false,
    false, false, false, false, false, false, false, false, false, false, false, false, false,
    false, false, false, false, false, false, false, false, false, false, false, false, false,
    false, false, false, false, false, false, false, false, false, false, false, false, false,
    false, false, false, false, false, false, false, false, false, false, false, false, false,
    false, false, false, false, false, false, false, false, false, false, false, false, false,
    false, false, false, false, false, false, false, false, false, false, false, false, false,
    false, false, false, false, false, false, false, false, false, false, false, false, false,
    false, false, false, false, false, false, false, false, false, false, false, false, false,
    false, false, false, false, false, false, false, false, false, false, false, false, false,
    false, false, false, false, false, false, false, false, false, false, false, false, false,
    false, false, false, false, false, false, false, false, false, false, false, false, false,
    false, false, false, false, false,
];

fn is_word_end(byte: u8) -> bool
    ensures { result ≡ is_word_end byte }
{
    entry(&WORD_ENDS, byte)
}

fn entry(table: &[bool; 256], byte: u8) -> bool
    ensures { result ≡ slice_index_or table.now byte false }
{
    table[usize::from(byte)]
}

fn is_separator(byte: u8) -> bool
    ensures { result ≡ is_separator byte }
{
    is_word_end(byte) && byte != b'!'
}

// How many separators stand first.
pub(crate) fn separators(bytes: &[u8]) -> usize
    ensures count { result ≡ prefix_len is_separator bytes.now }
    ensures within { result ≤ length bytes.now }
{
    let mut end = 0;
    while end < bytes.len() && is_separator(bytes[end]) {
        end += 1;
    }
    end
}

// Where a word at the front ends: at the first separator or `!`, or the length.
pub(crate) fn word_end(bytes: &[u8]) -> usize
    ensures place { result ≡ position_or_len is_word_end bytes.now }
    ensures within { result ≤ length bytes.now }
{
    let mut end = 0;
    while end < bytes.len() && !is_word_end(bytes[end]) {
        end += 1;
    }
    end
}
