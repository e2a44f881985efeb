use ascii_text::{Lines, Words, cue_number, level, moment, number, same_word, time, whole};
use std::process::Abort;

// What a word may be read as.
#[derive(Clone, Copy)]
enum Form {
    Number,
    // A number of at most 65535.
    Whole,
    Level,
    Time,
    CueNumber,
    Moment,
}

fn value(form: Form, word: &[u8]) -> Option<u64> {
    match form {
        Form::Number => number(word).map(u64::from),
        Form::Whole => whole(word, 65535).map(u64::from),
        Form::Level => level(word).map(u64::from),
        Form::Time => time(word).map(u64::from),
        Form::CueNumber => cue_number(word).map(u64::from),
        Form::Moment => moment(word),
    }
}

fn expect_values(rt: &impl Abort, words: &[(Form, &[u8], Option<u64>)]) {
    for (form, word, want) in words {
        assert!(rt; value(*form, word) == *want, "{word:?}");
    }
}

#[test]
fn word_forms(rt: HostRuntime) {
    expect_values(
        &rt,
        &[
            (Form::Time, b"99:59.99", Some(5_999_990)),
            (Form::Time, b".5", Some(500)),
            (Form::Time, b"100:00", None),
            (Form::Time, b"6000", None),
            (Form::CueNumber, b"9999.999", Some(9_999_999)),
            (Form::CueNumber, b"0", None),
            (Form::Level, b"1", Some(3)),
            (Form::Level, b"99", Some(252)),
            (Form::Level, b"HF", Some(15)),
            (Form::Level, b"ff", Some(255)),
            (Form::Level, b"H", None),
            (Form::Number, b"999999999", Some(999_999_999)),
            (Form::Number, b"0000000001", None),
            (Form::Whole, b"65535", Some(65535)),
            (Form::Whole, b"65536", None),
            (Form::Moment, b"000000000000010", Some(10)),
            (Form::Moment, b"0000000000000010", None),
        ],
    );
}

// Whether these are the lines of a text, numbered from 1 on.
fn has_lines(text: &[u8], wanted: &[&[u8]]) -> bool {
    if text.len() > 200 {
        return false;
    }
    let mut lines = Lines::new(text);
    for (place, bytes) in wanted.iter().enumerate() {
        match lines.next() {
            Some(line) if line.number as usize == place + 1 && line.bytes == *bytes => {}
            _ => return false,
        }
    }
    lines.next().is_none()
}

#[test]
fn lines_with_numbers(rt: HostRuntime) {
    for (text, wanted) in &[
        (
            b"CUE 1\r\n\nEndData\nCUE 9".as_slice(),
            [b"CUE 1\r".as_slice(), b"", b"EndData", b"CUE 9"].as_slice(),
        ),
        (b"", &[]),
        (b"\n\n", &[b"", b""]),
    ] {
        assert!(rt; has_lines(text, wanted), "{text:?}");
    }
}

// Whether these are the words of a line, and none comes behind them however often one is asked for.
fn has_words(line: &[u8], wanted: &[&[u8]]) -> bool {
    let mut words = Words::new(line);
    for word in wanted {
        if words.next() != Some(*word) {
            return false;
        }
    }
    words.next().is_none() && words.next().is_none()
}

// Other control bytes, and a byte order mark, belong to words.
#[test]
fn words_before_the_comment(rt: HostRuntime) {
    for (line, wanted) in &[
        (
            b"\t Patch,1 1<1@H80;/2=>3\x1a\r! Front 9".as_slice(),
            [b"Patch".as_slice(), b"1", b"1", b"1", b"H80", b"2", b"3"].as_slice(),
        ),
        (
            b"\xEF\xBB\xBFCUE\x0B1\x0C\0 2",
            &[b"\xEF\xBB\xBFCUE\x0B1\x0C\0", b"2"],
        ),
    ] {
        assert!(rt; has_words(line, wanted), "{line:?}");
    }
}

#[test]
fn keywords(rt: HostRuntime) {
    for (word, keyword, same) in &[
        (b"Patch".as_slice(), b"PATCH".as_slice(), true),
        (b"Patched", b"PATCH", false),
        (b"\xEF\xBB\xBFCUE", b"CUE", false),
    ] {
        assert!(rt; same_word(word, keyword) == *same, "{word:?}");
    }
}
