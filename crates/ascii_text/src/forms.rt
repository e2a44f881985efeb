ghost use Rattle.std.specs.Prelude.{◌≡◌, ◌+◌, ◌*◌, ◌<◌, ◌≤◌, ◌^◌, ◌==◌, true, false, length};
ghost use Rattle.std.specs.Prelude.{IfSome, MatchOption};
ghost use Rattle.std.specs.List.{list_any, before_first, after_first};
ghost use Rattle.std.specs.Option.{option_or};
ghost use Rattle.ascii_text.specs.Forms.{same_word, digits_of, number_of, moment_of, whole_of};
ghost use Rattle.ascii_text.specs.Forms.{level_of, full_of, hex_of, hex_digit_of};
ghost use Rattle.ascii_text.specs.Forms.{units_of, fraction_of, scaled_of, cue_number_of};
ghost use Rattle.ascii_text.specs.Forms.{seconds_of, time_of};

use crate::scan::position_or_len;

/// Whether a word is a keyword, without regard to ASCII case.
pub fn same_word(word: &[u8], keyword: &[u8]) -> bool
    ensures { result ≡ same_word word.now keyword.now }
{
    word.eq_ignore_ascii_case(keyword)
}

/// A number: 1 to 9 digits, zeros in front included.
pub fn number(word: &[u8]) -> Option<u32>
    ensures { result ≡ number_of word.now }
{
    let value = digits(word, 9)?;
    Some(value as u32)
}

/// A moment: 1 to 15 digits.
pub fn moment(word: &[u8]) -> Option<u64>
    ensures { result ≡ moment_of word.now }
{
    digits(word, 15)
}

/// A number that is at most `max`.
pub fn whole(word: &[u8], max: u32) -> Option<u32>
    ensures value { result ≡ whole_of max word.now }
    ensures within { IfSome result (λ n. n ≤ max) }
{
    let number = number(word)?;
    if number <= max { Some(number) } else { None }
}

/// A level as a byte: a percentage, `FL` or `FF`, or `H` and 1 or 2 hex digits.
#[inline]
pub fn level(word: &[u8]) -> Option<u8>
    ensures { result ≡ level_of word.now }
{
    if word.first()?.is_ascii_digit() {
        let percent = whole(word, 100)?;
        return Some(((percent * 255 + 50) / 100) as u8);
    }
    lettered_level(word)
}

// A level that is no percentage. Most are one: those are read where `level` is called, without a
// call of their own.
#[inline(never)]
fn lettered_level(word: &[u8]) -> Option<u8>
    ensures { result ≡ option_or (full_of word.now) (hex_of word.now) }
{
    if same_word(word, b"FL") || same_word(word, b"FF") {
        return Some(255);
    }
    hex(word)
}

/// A cue number in thousandths, 1 to 9,999,999: `I`, `I.F` or `.F`, where I is at most 9999 and
/// F has 1 to 3 digits.
pub fn cue_number(word: &[u8]) -> Option<u32>
    ensures { result ≡ cue_number_of word.now }
{
    let number = decimal_number(word, 9999, 3)?;
    if number == 0 { None } else { Some(number) }
}

/// A time in milliseconds: `S`, `S.F` or `.F`, where S is at most 5999 seconds, or `M:X` or
/// `M:X.F`, where M is at most 99 minutes and X has 1 or 2 digits and is at most 59 seconds.
/// F has 1 or 2 digits.
pub fn time(word: &[u8]) -> Option<u32>
    ensures { result ≡ time_of word.now }
{
    match split_once(word, b':') {
        Some((minutes, rest)) => Some(whole(minutes, 99)? * 60_000 + seconds(rest)?),
        None => decimal_number(word, 5999, 2),
    }
}

// What stands behind the colon of a time, in milliseconds.
fn seconds(word: &[u8]) -> Option<u32>
    ensures value { result ≡ seconds_of word.now }
    ensures below { IfSome result (λ n. n < 60000) }
{
    let digits = position_or_len(word, b'.');
    if (1..=2).contains(&digits) {
        decimal_number(word, 59, 2)
    } else {
        None
    }
}

// A number with up to `places` digits behind its point, in thousandths.
fn decimal_number(word: &[u8], max: u32, places: usize) -> Option<u32>
    requires few { max < 10000 }
    requires short { places ≤ 3 }
    ensures value { result ≡ scaled_of max places word.now }
    ensures below { IfSome result (λ n. n < max * 1000 + 1000) }
{
    match split_once(word, b'.') {
        Some((before, after)) => Some(units(before, max)? + fraction(after, places)?),
        None => Some(whole(word, max)? * 1000),
    }
}

// What stands before the point, in thousandths.
fn units(word: &[u8], max: u32) -> Option<u32>
    requires { max < 10000 }
    ensures value { result ≡ units_of max word.now }
    ensures within { IfSome result (λ n. n ≤ max * 1000) }
{
    if word.is_empty() {
        return Some(0);
    }
    Some(whole(word, max)? * 1000)
}

// What stands behind the point, in thousandths.
fn fraction(word: &[u8], places: usize) -> Option<u32>
    requires { places ≤ 3 }
    ensures value { result ≡ fraction_of places word.now }
    ensures below { IfSome result (λ n. n < 1000) }
{
    let value = digits(word, places)? as u32;
    match word.len() {
        1 => Some(value * 100),
        2 => Some(value * 10),
        _ => Some(value),
    }
}

// What stands before and behind the first `mark`.
fn split_once(word: &[u8], mark: u8) -> Option<(&[u8], &[u8])>
    ensures { MatchOption result (list_any (λ b. b == mark) word.now ≡ false)
        (λ parts. (list_any (λ b. b == mark) word.now ≡ true)
        × (parts.0.now ≡ before_first (λ b. b == mark) word.now)
        × (parts.1.now ≡ after_first (λ b. b == mark) word.now)) }
{
    let end = position_or_len(word, mark);
    if end == word.len() {
        None
    } else {
        Some((&word[..end], &word[end + 1..]))
    }
}

// The number that 1 to `most` digits spell.
fn digits(word: &[u8], most: usize) -> Option<u64>
    requires { most ≤ 19 }
    ensures value { result ≡ digits_of most word.now }
    ensures below { IfSome result (λ n. n < 10 ^ length word.now) }
    ensures within { IfSome result (λ n. (1 ≤ length word.now) × (length word.now ≤ most)) }
{
    if word.is_empty() || word.len() > most {
        return None;
    }
    let mut value = 0u64;
    for &digit in word {
        if !digit.is_ascii_digit() {
            return None;
        }
        value = value * 10 + u64::from(digit - b'0');
    }
    Some(value)
}

fn hex(word: &[u8]) -> Option<u8>
    ensures { result ≡ hex_of word.now }
{
    match word {
        [b'h' | b'H', a] => hex_digit(*a),
        [b'h' | b'H', a, b] => Some(hex_digit(*a)? * 16 + hex_digit(*b)?),
        _ => None,
    }
}

fn hex_digit(byte: u8) -> Option<u8>
    ensures { result ≡ hex_digit_of byte }
{
    // Of hex digits no processor foresees which is a letter, so there is no branch for it: a letter
    // has bit 6, and 1 to 6 below.
    if byte.is_ascii_hexdigit() {
        Some((byte & 0xf) + 9 * (byte >> 6))
    } else {
        None
    }
}
