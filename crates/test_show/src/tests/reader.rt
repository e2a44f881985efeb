use show_core::{Counts, Show};
use show_reader::{Loaded, ShowFault, limits_law, one_show_law, read_show};
use std::alloc::Global;
use std::test::Fail;

// What is read of a text. If an allocation failed, the answer is Memory, and the next reading
// gives what the text says. At ample memory the first reading has to.
fn read(alloc: Global, text: &[u8]) -> Result<Loaded, ShowFault> {
    match read_show(alloc, text) {
        Err(ShowFault::Memory) => read_show(alloc, text),
        answer => answer,
    }
}

// How many lines were read and skipped, and how much there is of each kind.
fn sizes(loaded: &Loaded) -> (u32, u32, Counts) {
    (loaded.lines, loaded.skipped, loaded.show.counts())
}

// A text that grows nothing above its fault needs no memory: the first reading answers.
fn reads_at_once(alloc: Global, text: &[u8], answer: Result<(u32, u32), ShowFault>) -> bool {
    match read_show(alloc, text) {
        Ok(loaded) => answer == Ok((loaded.lines, loaded.skipped)),
        Err(fault) => answer == Err(fault),
    }
}

#[test]
fn nothing_grows(rt: HostRuntime) {
    limits_law();
    one_show_law();
    for (text, answer) in &[
        (b"".as_slice(), Ok((0, 0))),
        (b"! a comment\n\n", Ok((2, 0))),
        (b"CUE x\nCUE 1", Err(ShowFault::BadNumber(1))),
        (b"UP 5\nIDENT 3:0\nCLEAR ALL\nEFFECT 1", Ok((4, 2))),
        (b"PATCH 1 0<1@FL\nSUB 101", Err(ShowFault::Limit(2))),
    ] {
        assert!(rt; reads_at_once(rt.alloc(), text, *answer), "{text:?}");
    }
}

#[test]
fn skipped_lines(rt: HostRuntime) -> Result<(), Fail> {
    let text = b"CUE 1\nCHAN 1@FL\n$$FADE 7\nCHAN 2@50\n$MAKER 9\nCHAN 1@0\nCUE 2 2\nCHAN 3@FL\n";
    let loaded = read(rt.alloc(), text)?;
    let counts = Counts {
        cues: 1,
        subs: 0,
        groups: 0,
        dimmers: 0,
    };
    let levels = [(1, 255), (2, 128)];
    assert!(rt; sizes(&loaded) == (8, 5, counts) && has_left(&loaded.show, &levels, &[]));
    Ok(())
}

// Levels and patches in any order, over several lines: the last of a channel or a dimmer counts.
#[test]
fn any_order(rt: HostRuntime) -> Result<(), Fail> {
    let text = b"GROUP 7\nCHAN 3@H3 2@H2\nCUE 1\nCHAN 9@H1 5@H5\nCHAN 7@H7 1@H1 9@H9\nCHAN\n\
        CHAN 3@H3 3@0 2@H2\nSUB 4\nCHAN 8@H8\nCHAN 4@H4 8@H7\nPATCH 1 2<9@H1 1<3@H2 4<9@H3\n\
        PATCH 1 3<1@H4 0<3@FL 5<2@H5 0<7@FL";
    let loaded = read(rt.alloc(), text)?;
    let levels = [(1, 1), (2, 2), (3, 0), (5, 5), (7, 7), (9, 9)];
    let patch = [(1, (3, 4)), (2, (5, 5)), (9, (4, 3))];
    assert!(rt;
        has_left(&loaded.show, &levels, &patch)
            && has_masters(&loaded.show, &[(4, 4), (8, 7)], &[(2, 2), (3, 3)])
    );
    Ok(())
}

// Whether a show has these levels in its first cue, and this patch.
fn has_left(show: &Show, levels: &[(u16, u8)], patch: &[(u16, (u16, u8))]) -> bool {
    match show.cue(1000) {
        Some(cue) => cue.pairs() == levels && show.patch() == patch,
        None => false,
    }
}

// Whether a show has these levels in its submaster 4 and its group 7.
fn has_masters(show: &Show, sub: &[(u16, u8)], group: &[(u16, u8)]) -> bool {
    show.sub(4) == Some(sub) && show.group(7) == Some(group)
}

// Whether cue 2 has these levels, up and down times, and a follow-on time.
fn has_cue_2(show: &Show, levels: &[(u16, u8)], times: (u32, u32, u32)) -> bool {
    match show.cue(2000) {
        Some(cue) => {
            cue.pairs() == levels
                && (cue.up().time, cue.down().time) == (times.0, times.1)
                && cue.follow() == Some(times.2)
        }
        None => false,
    }
}

// The lines of a record that is opened again add to it, whatever stands between them.
#[test]
fn lines_between(rt: HostRuntime) -> Result<(), Fail> {
    let text = b"CUE 2\nCHAN 4@H4 2@H2\nUP 5\nCHAN 3@H3\nPATCH 1 1<8@H1\nCUE 1\nCHAN 2@FL\n\
        CUE 2\nCHAN 1@H1 4@H5\nDOWN 6\nPATCH 1 2<7@H2 0<8@0\nGROUP 1\nCUE 2\nFOLLOWON 7\n\
        CHAN 3@H4\n";
    let loaded = read(rt.alloc(), text)?;
    let levels = [(1, 1), (2, 2), (3, 4), (4, 5)];
    assert!(rt;
        has_cue_2(&loaded.show, &levels, (5000, 6000, 7000))
            && has_left(&loaded.show, &[(2, 255)], &[(7, (2, 2))])
    );
    Ok(())
}
