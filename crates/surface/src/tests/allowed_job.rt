//! `Job`, which may have variants beside those of the specification, for words that this does not
//! have. Each stands in a line that ends with a mark. This takes them away, and then a tree that
//! has such a variant does not compile:
//!
//! ```text
//! sed -i '/ALLOWED$/d' allowed_job.rt
//! ```

use cmd_words::{Job, Name, read_words};
use std::alloc::Global;

fn number(job: &Job) -> u8 {
    match job {
        Job::Check { show: _ } => 1,
        Job::Look {
            show: _,
            cue: _,
            cid: _,
        } => 2,
        Job::Play {
            show: _,
            to: _,
            cid: _,
            priority: _,
            base: _,
        } => 3,
        Job::Rehearse { show: _, script: _ } => 4,
        Job::Listen {
            at: _,
            universe: _,
            count: _,
        } => 5,
        Job::CheckStrictly { .. } => 0, // ALLOWED
        Job::PlayNight(_night) => 0, // ALLOWED
        Job::Explain { .. } => 0, // ALLOWED
        Job::Cues { .. } => 0, // ALLOWED
        Job::Slots { .. } => 0, // ALLOWED
        Job::Live { .. } => 0, // ALLOWED
        Job::Watch { .. } => 0, // ALLOWED
    }
}

fn number_of(alloc: Global, words: &[&str]) -> Option<u8> {
    match read_words(alloc, words) {
        Ok(job) => Some(number(&job)),
        Err(_fault) => None,
    }
}

fn is_name(name: &Name, text: &str) -> bool {
    name.as_str() == text
}

#[test]
fn each_job(rt: HostRuntime) {
    let cid = "c0ffee00-0000-4000-8000-00000000e131";
    let rows: &[&[&str]] = &[
        &["cueplayer", "check", "x"],
        &["cueplayer", "look", "x", "1", "--cid", cid],
        &["cueplayer", "play", "x", "--to", "127.0.0.1", "--cid", cid],
        &["cueplayer", "rehearse", "x", "y"],
        &["cueplayer", "listen", "127.0.0.1", "1", "1"],
    ];
    for (place, words) in rows.iter().enumerate() {
        assert!(rt; number_of(rt.alloc(), words) == Some(place as u8 + 1));
    }
    let is_named = match read_words(rt.alloc(), rows[0]) {
        Ok(Job::Check { show }) => is_name(&show, "x"),
        _other => false,
    };
    assert!(rt; is_named);
}
