//! cmd_words's `read_words`, `Job`, `Name` and `WordsFault`: look_one, look_words and the forms of
//! the words.

use super::rows::CID;
use cmd_words::{Job, WordsFault, read_words};
use std::alloc::Global;

const UUID: &str = "c0ffee00-0000-4000-8000-00000000e131";

fn is_check(alloc: Global) -> bool {
    match read_words(alloc, &["cueplayer", "check", "-"]) {
        Ok(Job::Check { show }) => show.as_str() == "-",
        _ => false,
    }
}

fn is_look(alloc: Global) -> bool {
    match read_words(alloc, &["cueplayer", "look", "-", "1", "--cid", UUID]) {
        Ok(Job::Look { show, cue, cid }) => show.as_str() == "-" && cue == 1000 && cid == CID,
        _ => false,
    }
}

fn is_play(alloc: Global, words: &[&str], port: u16, levels: (u8, u16)) -> bool {
    match read_words(alloc, words) {
        Ok(
            Job::Play {
                show,
                to,
                cid,
                priority,
                base,
            },
        ) => {
            let wanted: ([u8; 4], u16) = ([10, 0, 0, 255], port);
            show.as_str() == "x" && to == wanted && cid == CID && (priority, base) == levels
        }
        _ => false,
    }
}

fn is_rehearse(alloc: Global) -> bool {
    match read_words(alloc, &["cueplayer", "rehearse", "x", "y"]) {
        Ok(Job::Rehearse { show, script }) => show.as_str() == "x" && script.as_str() == "y",
        _ => false,
    }
}

fn is_listen(alloc: Global) -> bool {
    match read_words(
        alloc,
        &["cueplayer", "listen", "0.0.0.0:1", "63999", "1000000"],
    ) {
        Ok(
            Job::Listen {
                at,
                universe,
                count,
            },
        ) => at == ([0, 0, 0, 0], 1) && universe == 63999 && count == 1_000_000,
        _ => false,
    }
}

#[test]
fn jobs(rt: HostRuntime) {
    let alloc = rt.alloc();
    assert!(rt; is_check(alloc));
    assert!(rt; is_look(alloc));
    let words = [
        "cueplayer",
        "play",
        "x",
        "--to",
        "10.0.0.255",
        "--cid",
        UUID,
    ];
    assert!(rt; is_play(alloc, &words, 5568, (100, 1)));
    let words = [
        "cueplayer",
        "play",
        "x",
        "--to",
        "10.0.0.255:65535",
        "--cid",
        UUID,
        "--priority",
        "200",
        "--base",
        "63999",
    ];
    assert!(rt; is_play(alloc, &words, 65535, (200, 63999)));
    assert!(rt; is_rehearse(alloc));
    assert!(rt; is_listen(alloc));
}

fn fault(alloc: Global, words: &[&str]) -> u8 {
    match read_words(alloc, words) {
        Ok(_job) => 0,
        Err(WordsFault::Refused(_error)) => 1,
        Err(WordsFault::Unfit) => 2,
        Err(WordsFault::Memory) => 3,
    }
}

#[test]
fn faults(rt: HostRuntime) {
    let refused: &[&[&str]] = &[
        &["cueplayer", "look", "-", "1"],
        &["cueplayer"],
        &["cueplayer", "jump"],
        &["cueplayer", "check", "x", "y"],
    ];
    for words in refused {
        assert!(rt; fault(rt.alloc(), words) == 1, "{words:?}");
    }
    let unfit: &[&[&str]] = &[
        &["cueplayer", "look", "-", "x", "--cid", UUID],
        &["cueplayer", "look", "-", "1", "--cid", "x"],
        &["cueplayer", "listen", "1.2.3.256", "1", "1"],
        &["cueplayer", "listen", "1.2.3.4:65536", "1", "1"],
        &["cueplayer", "listen", "1.2.3.4", "0", "1"],
        &["cueplayer", "listen", "1.2.3.4", "64000", "1"],
        &["cueplayer", "listen", "1.2.3.4", "1", "1000001"],
        &[
            "cueplayer",
            "play",
            "x",
            "--to",
            "1.2.3.4",
            "--cid",
            UUID,
            "--priority",
            "201",
        ],
        &[
            "cueplayer",
            "play",
            "x",
            "--to",
            "1.2.3.4",
            "--cid",
            UUID,
            "--base",
            "0",
        ],
    ];
    for words in unfit {
        assert!(rt; fault(rt.alloc(), words) == 2, "{words:?}");
    }
}
