//! ascii_text: word_forms.

use ascii_text::{Line, Lines, Words, cue_number, level, moment, same_word, time, whole};

#[test]
fn times(rt: HostRuntime) {
    let rows: &[(&[u8], Option<u32>)] = &[
        (b"99:59.99", Some(5_999_990)),
        (b".5", Some(500)),
        (b"5", Some(5000)),
        (b"1:2", Some(62_000)),
        (b"100:00", None),
        (b"1:60", None),
        (b"6000", None),
        (b"", None),
    ];
    for (word, value) in rows {
        assert!(rt; time(word) == *value, "{word:?}");
    }
}

#[test]
fn cue_numbers(rt: HostRuntime) {
    let rows: &[(&[u8], Option<u32>)] = &[
        (b"9999.999", Some(9_999_999)),
        (b"1.5", Some(1500)),
        (b".001", Some(1)),
        (b"0", None),
        (b"10000", None),
        (b"1.0000", None),
        (b"x", None),
    ];
    for (word, value) in rows {
        assert!(rt; cue_number(word) == *value, "{word:?}");
    }
}

#[test]
fn levels(rt: HostRuntime) {
    let rows: &[(&[u8], Option<u8>)] = &[
        (b"1", Some(3)),
        (b"50", Some(128)),
        (b"99", Some(252)),
        (b"100", Some(255)),
        (b"101", None),
        (b"HF", Some(15)),
        (b"h80", Some(128)),
        (b"ff", Some(255)),
        (b"FL", Some(255)),
        (b"H", None),
        (b"H123", None),
    ];
    for (word, value) in rows {
        assert!(rt; level(word) == *value, "{word:?}");
    }
}

#[test]
fn numbers(rt: HostRuntime) {
    assert!(rt; whole(b"200", 200) == Some(200));
    assert!(rt; whole(b"201", 200) == None);
    assert!(rt; whole(b"0000000001", 200) == None);
    assert!(rt; moment(b"281474976710656") == Some(281_474_976_710_656));
    assert!(rt; moment(b"1234567890123456") == None);
    assert!(rt; moment(b"") == None);
    assert!(rt; same_word(b"eNdData", b"ENDDATA"));
    assert!(rt; !same_word(b"ENDDAT", b"ENDDATA"));
}

fn is_line(line: Option<Line<'_>>, wanted: u32, text: &[u8]) -> bool {
    match line {
        Some(Line { number, bytes }) => number == wanted && bytes == text,
        None => false,
    }
}

// All lines, also past ENDDATA; the bytes after the last LF are one more.
#[test]
fn lines(rt: HostRuntime) {
    let mut lines = Lines::new(b"cue 1\n\nENDDATA\nx");
    assert!(rt; is_line(lines.next(), 1, b"cue 1"));
    assert!(rt; is_line(lines.next(), 2, b""));
    assert!(rt; is_line(lines.next(), 3, b"ENDDATA"));
    assert!(rt; is_line(lines.next(), 4, b"x"));
    assert!(rt; lines.next().is_none());
    assert!(rt; Lines::new(b"").next().is_none());
}

#[test]
fn words(rt: HostRuntime) {
    let mut words = Words::new(b"\tChan 1/Hff,2@H80\x1a\r! house");
    for wanted in [b"Chan".as_slice(), b"1", b"Hff", b"2", b"H80"] {
        assert!(rt; words.next() == Some(wanted), "{wanted:?}");
    }
    assert!(rt; words.next().is_none());
}
