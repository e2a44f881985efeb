//! show_reader: show_faults, skipped_lines, console_style_file, clear_cues, too_many_cues,
//! foreign_page_order, follow_faults and limits_refused.

use super::rows::{S1, comment};
use show_core::{Counts, Rate, Show};
use show_reader::{Loaded, ShowFault, read_show};
use std::alloc::Global;
use std::test::Fail;

fn refuses(alloc: Global, text: &[u8], fault: ShowFault) -> bool {
    match read_show(alloc, text) {
        Ok(_) => false,
        Err(found) => found == fault,
    }
}

#[test]
fn faults(rt: HostRuntime) {
    let rows: &[(&[u8], ShowFault)] = &[
        (b"CUE 1\nCHAN 1@101", ShowFault::BadLevel(2)),
        (b"CUE 1\nCHAN 1", ShowFault::HalfPair(2)),
        (b"CUE 1\nUP 1:60", ShowFault::BadTime(2)),
        (b"CUE", ShowFault::MissingNumber(1)),
        (b"CUE x", ShowFault::BadNumber(1)),
        (b"PATCH 1 1<1", ShowFault::HalfTriple(1)),
        (b"PATCH 1 1<8193@FL", ShowFault::Limit(1)),
        (b"PATCH 1 4097<1@FL", ShowFault::Limit(1)),
        (b"CUE 1\nCHAN 5000@101", ShowFault::BadLevel(2)),
        (b"IDENT 2:0", ShowFault::Ident(1)),
        (b"CUE x 2", ShowFault::BadNumber(1)),
        (b"SUB 101 2", ShowFault::Limit(1)),
        (b"CUE 1\nFOLLOWON x", ShowFault::BadTime(2)),
        (b"CUE 1\nFOLLOWON", ShowFault::MissingNumber(2)),
    ];
    for (text, fault) in rows {
        assert!(rt; refuses(rt.alloc(), text, *fault), "{text:?}");
    }
}

// Lines, cues, submasters, groups, dimmers and skipped lines.
fn sizes(loaded: &Loaded) -> [u32; 6] {
    let Loaded {
        show,
        lines,
        skipped,
    } = loaded;
    let Counts {
        cues,
        subs,
        groups,
        dimmers,
    } = show.counts();
    [*lines, cues, subs, groups, dimmers, *skipped]
}

fn reads(alloc: Global, text: &[u8], wanted: [u32; 6]) -> bool {
    match read_show(alloc, text) {
        Ok(loaded) => sizes(&loaded) == wanted,
        Err(_) => false,
    }
}

const CONSOLE_FILE: &[u8] = b"Ident 3:0\r\nManufacturer Example\r\nConsole Example\r\n\
$$Format 3.20\r\nClear all\r\nSet Channels 96\r\nPatch 1 1<1@Hff 2<2@Hff\r\nCue 1\r\n  Up 3\r\n  \
Text Opening ! house\r\n  Chan 1/Hff 2/H80\r\nEndData\r\nCue 9\r\n";

#[test]
fn accepted(rt: HostRuntime) {
    let rows: &[(&[u8], [u32; 6])] = &[
        (b"", [0, 0, 0, 0, 0, 0]),
        (b"IDENT 3:0", [1, 0, 0, 0, 0, 0]),
        (S1, [12, 2, 1, 0, 2, 0]),
        (
            b"CUE 1\nCHAN 1@FL\n$$FADE 7\nCHAN 2@50\n$MAKER 9\nCHAN 1@0\nCUE 2 2\nCHAN 3@FL",
            [8, 1, 0, 0, 0, 5],
        ),
        (
            b"CUE 1\nCHAN 1@FL\nCLEAR CUES\nCHAN 2@FL\nCUE 2\nCLEAR CUE 2",
            [6, 1, 0, 0, 0, 2],
        ),
        (b"CUE 3 2", [1, 0, 0, 0, 0, 1]),
        (b"PATCH 1 1<4097@FL", [1, 0, 0, 0, 1, 0]),
        (b"PATCH 1 1<1@FL 0<1@FL", [1, 0, 0, 0, 0, 0]),
        (b"GROUP 1\nFOLLOWON x", [2, 0, 0, 1, 0, 0]),
        (CONSOLE_FILE, [12, 1, 0, 0, 2, 1]),
    ];
    for (text, wanted) in rows {
        assert!(rt; reads(rt.alloc(), text, *wanted), "{text:?}");
    }
}

fn has_cue_1(show: &Show, pairs: &[(u16, u8)], rate: Rate) -> bool {
    match show.cue(1000) {
        Some(cue) => cue.pairs() == pairs && cue.up() == rate && cue.down() == rate,
        None => false,
    }
}

// DOWN is not in it, so it is 3 s too.
#[test]
fn console_file(rt: HostRuntime) -> Result<(), Fail> {
    let loaded = read_show(rt.alloc(), CONSOLE_FILE)?;
    let rate = Rate {
        time: 3000,
        delay: 0,
    };
    assert!(rt; has_cue_1(&loaded.show, &[(1, 255), (2, 128)], rate));
    Ok(())
}

// A file of 1,048,576 bytes is read, one of 1,048,577 is not.
#[test]
fn too_long(rt: HostRuntime) -> Result<(), Fail> {
    let text = comment(rt.alloc(), 1_048_577)?;
    assert!(rt; refuses(rt.alloc(), text.as_slice(), ShowFault::TooLong));
    let text = comment(rt.alloc(), 1_048_576)?;
    assert!(rt; reads(rt.alloc(), text.as_slice(), [1, 0, 0, 0, 0, 0]));
    Ok(())
}

#[test]
fn two_thousand_and_one_cues(rt: HostRuntime) -> Result<(), Fail> {
    let alloc = rt.alloc();
    let mut text = String::new(alloc);
    for n in 1..=2001u32 {
        text.push_str(format!(in alloc; "CUE {n}\n")?.as_str())?;
    }
    assert!(rt; refuses(alloc, text.as_bytes(), ShowFault::Limit(2001)));
    Ok(())
}
