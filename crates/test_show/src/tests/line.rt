use show_core::{CueTime, Rate};
use show_line::{Keyword, LineFault, Reading, Record, Statement, Triple, read_line};
use std::alloc::{AllocError, Global};
use std::test::Fail;

const CUE: Option<Record> = Some(Record::Cue(1000));

// Whether a fault reads so.
fn is_told(alloc: Global, fault: LineFault, words: &str) -> Result<bool, AllocError> {
    let told = format!(in alloc; "{fault}")?;
    Ok(told.as_str() == words)
}

// Whether this stands in what is read of a line, as it is shown to a programmer.
fn is_debugged(alloc: Global, line: &[u8], words: &str) -> Result<bool, AllocError> {
    let told = format!(in alloc; "{:?}", read_line(CUE, line))?;
    Ok(told.contains(words))
}

#[test]
fn faults_in_words(rt: HostRuntime) -> Result<(), Fail> {
    for (fault, words) in &[
        (LineFault::Ident, "IDENT is not 3:0"),
        (LineFault::MissingNumber, "a number is missing"),
        (LineFault::BadNumber, "not a number"),
        (LineFault::BadLevel, "not a level"),
        (LineFault::BadTime, "not a time"),
        (LineFault::HalfPair, "a channel without a level"),
        (LineFault::HalfTriple, "an unfinished triple"),
        (LineFault::Limit, "beyond a limit"),
    ] {
        assert!(rt; is_told(rt.alloc(), *fault, words)?, "{words}");
    }
    for (line, debugged) in &[
        (b"GROUP 500".as_slice(), "Group(500)"),
        (b"CHAN 7@H9", "(7, 9)"),
    ] {
        assert!(rt; is_debugged(rt.alloc(), line, debugged)?, "{debugged}");
    }
    Ok(())
}

// Whether a line opens this record, or none, and begins with this keyword.
fn opens(line: &[u8], opened: Option<Record>, keyword: Keyword) -> bool {
    match read_line(CUE, line) {
        Some(reading) => reading.statement.opens() == opened && reading.keyword == keyword,
        None => false,
    }
}

// Whether a line is blank.
fn is_blank(line: &[u8]) -> bool {
    read_line(CUE, line).is_none()
}

#[test]
fn opened_records(rt: HostRuntime) {
    for (line, opened, keyword) in &[
        (
            b"cue 9999.999 1 more".as_slice(),
            Some(Record::Cue(9_999_999)),
            Keyword::Cue,
        ),
        (b"CUE .001", Some(Record::Cue(1)), Keyword::Cue),
        (b"GROUP 1", Some(Record::Group(1)), Keyword::Group),
        (b"Group 500", Some(Record::Group(500)), Keyword::Group),
        (b"SUB 1", Some(Record::Sub(1)), Keyword::Sub),
        (b"SUB 100 000000001", Some(Record::Sub(100)), Keyword::Sub),
        (b"CUE 3 2", None, Keyword::Cue),
        (b"CUE 1 0", None, Keyword::Cue),
        (b"$CUE 1", None, Keyword::Maker),
        (b"$$CUE 1", None, Keyword::Unknown),
        (b"EndData", None, Keyword::EndData),
        (b"SET Channels 96", None, Keyword::Setting),
    ] {
        assert!(rt; opens(line, *opened, *keyword), "{line:?}");
    }
    assert!(rt; is_blank(b" , ! CUE 1"));
}

#[test]
fn keywords(rt: HostRuntime) {
    for (keyword, owns, ends) in &[
        (Keyword::Maker, true, false),
        (Keyword::Clear, true, false),
        (Keyword::Unknown, false, false),
        (Keyword::EndData, true, true),
    ] {
        assert!(rt;
            keyword.may_own() == *owns && keyword.is_end() == *ends,
            "{keyword:?}"
        );
    }
}

// Whether a line has these levels for cue 1, and none behind them.
fn has_pairs(line: &[u8], wanted: &[(u16, u8)]) -> bool {
    let Some(reading) = read_line(CUE, line) else {
        return false;
    };
    let Statement::Levels(Record::Cue(1000), mut pairs) = reading.statement else {
        return false;
    };
    for pair in wanted {
        if pairs.next() != Some(*pair) {
            return false;
        }
    }
    pairs.next().is_none()
}

// Whether a line has these patches, each a channel, a dimmer and a level, and none behind them.
fn has_triples(line: &[u8], wanted: &[(u16, u16, u8)]) -> bool {
    let Some(reading) = read_line(None, line) else {
        return false;
    };
    let Statement::Patches(mut triples) = reading.statement else {
        return false;
    };
    for (channel, dimmer, level) in wanted {
        let triple = Triple {
            channel: *channel,
            dimmer: *dimmer,
            level: *level,
        };
        if triples.next() != Some(triple) {
            return false;
        }
    }
    triples.next().is_none()
}

#[test]
fn pairs_and_triples(rt: HostRuntime) {
    let line = b"Chan 1/Hff 4096/H80,1@0 ! house";
    assert!(rt; has_pairs(line, &[(1, 255), (4096, 128), (1, 0)]));
    let line = b"PATCH 1 1<8192@FL 0<2@50";
    assert!(rt; has_triples(line, &[(1, 8192, 255), (0, 2, 128)]));
}

// Longer than what is kept of a line: each channel at the byte of its own number.
const LONG_LINE: &[u8] = b"CHAN 1@H1 2@H2 3@H3 4@H4 5@H5 6@H6 7@H7 8@H8 9@H9 10@HA 11@HB 12@HC \
    13@HD 14@HE 15@HF 16@H10 17@H11 18@H12";

// Each channel of the long line from 1 on at the byte of its own number.
const LONG_PAIRS: [(u16, u8); 18] = [
    (1, 1),
    (2, 2),
    (3, 3),
    (4, 4),
    (5, 5),
    (6, 6),
    (7, 7),
    (8, 8),
    (9, 9),
    (10, 10),
    (11, 11),
    (12, 12),
    (13, 13),
    (14, 14),
    (15, 15),
    (16, 16),
    (17, 17),
    (18, 18),
];

// Puts the pairs of the long line behind its first into a list.
fn append_rest(list: &mut Vec<(u16, u8)>) -> Option<Result<(), AllocError>> {
    let Statement::Levels(_, mut pairs) = read_line(CUE, LONG_LINE)?.statement else {
        return None;
    };
    pairs.next()?;
    Some(pairs.append_to(list))
}

// Where an allocation fails the list is as it was, and the next call appends all of them.
#[test]
fn pairs_appended(rt: HostRuntime) {
    let mut list = Vec::new(rt.alloc());
    if append_rest(&mut list).expect(&rt, "levels").is_err() {
        assert!(rt; list.is_empty());
        assert!(rt; append_rest(&mut list).expect(&rt, "levels").is_ok());
    }
    assert!(rt; list.as_slice() == &LONG_PAIRS[1..]);
}

// The rate of a cue that a line sets, and whether it is that of its rising channels.
fn rate_of(line: &[u8]) -> Option<(bool, u32, Rate)> {
    match read_line(CUE, line)?.statement {
        Statement::SetsTime(cue, CueTime::Up(rate)) => Some((true, cue, rate)),
        Statement::SetsTime(cue, CueTime::Down(rate)) => Some((false, cue, rate)),
        _ => None,
    }
}

#[test]
fn rates(rt: HostRuntime) {
    for (line, rises, time, delay) in &[
        (b"UP 99:59.99 .5 x".as_slice(), true, 5_999_990, 500),
        (b"DOWN 4", false, 4000, 0),
    ] {
        let rate = Rate {
            time: *time,
            delay: *delay,
        };
        assert!(rt; rate_of(line) == Some((*rises, 1000, rate)), "{line:?}");
    }
}
