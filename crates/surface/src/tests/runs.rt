//! `check` and `look` of cmd_show, `listen` of cmd_listen and `exit_status` of cmd_faults:
//! look_one, empty_show, show_faults, skipped_lines, listen_three, look_two_universes,
//! look_missing_cue, look_no_patch, largest_show, each_device_fails and top_channel.

use super::own_devices::{Failing, TestOutput, TestSource};
use super::rows::{CID, ONE_LAMP, S1, comment};
use cmd_faults::{RunFault, exit_status};
use cmd_listen::listen;
use cmd_show::{check, look};
use sacn_packet::{Header, SourceName, encode};
use show_reader::ShowFault;
use std::alloc::Global;
use std::process::Abort;
use std::test::Fail;
use wire_world::Fault;

const NONE: Failing = Failing(None);

fn checks(alloc: Global, show: &[u8], text: &[u8]) -> bool {
    let mut out = TestOutput::new(alloc, NONE);
    check(alloc, show, &mut out) == Ok(()) && out.has(text)
}

#[test]
fn check_prints(rt: HostRuntime) {
    let rows: &[(&[u8], &[u8])] = &[
        (b"", b"lines 0 cues 0 subs 0 groups 0 dimmers 0 skipped 0\n"),
        (S1, b"lines 12 cues 2 subs 1 groups 0 dimmers 2 skipped 0\n"),
        (
            b"CUE 1\nCHAN 1@FL\n$$FADE 7\nCHAN 2@50\n$MAKER 9\nCHAN 1@0\nCUE 2 2\nCHAN 3@FL",
            b"lines 8 cues 1 subs 0 groups 0 dimmers 0 skipped 5\n",
        ),
    ];
    for (show, text) in rows {
        assert!(rt; checks(rt.alloc(), show, text), "{show:?}");
    }
}

fn check_refuses(alloc: Global, show: &[u8], fault: RunFault) -> bool {
    let mut out = TestOutput::new(alloc, NONE);
    check(alloc, show, &mut out) == Err(fault) && out.has(b"")
}

#[test]
fn check_faults(rt: HostRuntime) -> Result<(), Fail> {
    let alloc = rt.alloc();
    let fault = RunFault::Show(ShowFault::BadTime(2));
    assert!(rt; check_refuses(alloc, b"CUE 1\nUP 1:60", fault));
    let long = comment(alloc, 1_048_577)?;
    assert!(rt; check_refuses(alloc, long.as_slice(), RunFault::Show(ShowFault::TooLong)));
    let long = comment(alloc, 1_048_576)?;
    let text = b"lines 1 cues 0 subs 0 groups 0 dimmers 0 skipped 0\n";
    assert!(rt; checks(alloc, long.as_slice(), text));
    Ok(())
}

const HEX_HEAD: &[u8] = b"001000004153432d45312e3137000000726e00000004\
c0ffee00000040008000";

// A look prints so many lines of 1,276 digits, each with these at offset 113 and behind 125.
fn looks(alloc: Global, show: &[u8], cue: u32, lines: &[(&[u8], &[u8])]) -> bool {
    let mut out = TestOutput::new(alloc, NONE);
    if look(alloc, show, cue, CID, &mut out) != Ok(()) {
        return false;
    }
    let mut rest = out.text.as_slice();
    for (universe, slots) in lines {
        let Some((line, behind)) = rest.split_at_checked(1277) else {
            return false;
        };
        if !is_line(line, universe, slots) {
            return false;
        }
        rest = behind;
    }
    rest.is_empty()
}

fn is_line(line: &[u8], universe: &[u8], slots: &[u8]) -> bool {
    line.len() == 1277
        && line.starts_with(HEX_HEAD)
        && line[226..].starts_with(universe)
        && line[252..].starts_with(slots)
        && line[1276] == b'\n'
}

#[test]
fn look_prints(rt: HostRuntime) {
    let two = b"CUE 1\nCHAN 1@FL\nPATCH 1 1<1@FL 1<513@FL";
    assert!(rt; looks(rt.alloc(), ONE_LAMP, 1000, &[(b"0001", b"40")]));
    assert!(rt; looks(rt.alloc(), two, 1000, &[(b"0001", b"ff"), (b"0002", b"ff")]));
    assert!(rt; looks(rt.alloc(), b"CUE 1\nCHAN 1@H80", 1000, &[]));
}

fn ends_full(text: &[u8]) -> bool {
    text.len() == 1277 && text[226..].starts_with(b"0010") && text[1274..].starts_with(b"ff")
}

#[test]
fn top_channel(rt: HostRuntime) {
    let show = b"CUE 1\nCHAN 4096@FL\nPATCH 1 4096<8192@FL";
    let mut out = TestOutput::new(rt.alloc(), NONE);
    assert!(rt; look(rt.alloc(), show, 1000, CID, &mut out) == Ok(()));
    assert!(rt; ends_full(out.text.as_slice()));
}

#[test]
fn look_missing_cue(rt: HostRuntime) {
    let mut out = TestOutput::new(rt.alloc(), NONE);
    let answer = look(rt.alloc(), ONE_LAMP, 2000, CID, &mut out);
    assert!(rt; answer == Err(RunFault::NoCue));
    assert!(rt; out.has(b""));
}

#[test]
fn writes_fail(rt: HostRuntime) {
    let mut out = TestOutput::new(rt.alloc(), Failing(Some(0)));
    assert!(rt; look(rt.alloc(), ONE_LAMP, 1000, CID, &mut out) == Err(RunFault::Device));
    let mut out = TestOutput::new(rt.alloc(), Failing(Some(0)));
    assert!(rt; check(rt.alloc(), ONE_LAMP, &mut out) == Err(RunFault::Device));
}

// look_one's packet.
fn one_lamp(rt: &impl Abort) -> [u8; 638] {
    let header = Header {
        cid: CID,
        name: SourceName::new("cueplayer").expect(rt, "a name"),
        priority: 100,
        sequence: 0,
        options: 0,
        universe: 1,
    };
    let mut slots = [0; 512];
    slots[0] = 64;
    let mut packet = [0; 638];
    encode(&header, &slots, &mut packet);
    packet
}

const THREE: &[u8] =
    b"1 taken 0\n2 ignored OutOfSequence\n3 ignored Unreadable Short\nslots 1:64\n";

// What a run over listen_three's datagrams answers and prints, where a receive or a write fails.
fn listens(
    rt: &impl Abort,
    alloc: Global,
    receive: Failing,
    write: Failing,
    answer: Result<(), RunFault>,
    text: &[u8],
) -> bool {
    let packet = one_lamp(rt);
    let datagrams = [packet.as_slice(), packet.as_slice(), &[0; 5]];
    let mut source = TestSource::new(&datagrams, receive);
    let mut out = TestOutput::new(alloc, write);
    listen(&mut source, 1, 3, &mut out) == answer && out.has(text)
}

#[test]
fn listen_three(rt: HostRuntime) {
    assert!(rt; listens(&rt, rt.alloc(), NONE, NONE, Ok(()), THREE));
    for (count, length) in [(0, 0), (1, 10), (2, 34)] {
        let text = &THREE[..length];
        let failing = Failing(Some(count));
        assert!(rt; listens(&rt, rt.alloc(), failing, NONE, Err(RunFault::Device), text));
        assert!(rt; listens(&rt, rt.alloc(), NONE, failing, Err(RunFault::Device), text));
    }
}

fn reports(alloc: Global, answer: Result<(), RunFault>, status: u8, text: &[u8]) -> bool {
    let mut err = TestOutput::new(alloc, NONE);
    let mut failing = TestOutput::new(alloc, Failing(Some(0)));
    exit_status(&answer, &mut err) == status
        && err.has(text)
        && exit_status(&answer, &mut failing) == status
}

#[test]
fn statuses(rt: HostRuntime) {
    let rows: &[(Result<(), RunFault>, u8, &[u8])] = &[
        (Ok(()), 0, b""),
        (Err(RunFault::Base), 2, b"base: Universe\n"),
        (
            Err(RunFault::Show(ShowFault::TooLong)),
            3,
            b"show: TooLong\n",
        ),
        (
            Err(RunFault::Show(ShowFault::HalfPair(2))),
            3,
            b"show line 2: HalfPair\n",
        ),
        (Err(RunFault::NoCue), 3, b"show: NoCue\n"),
        (Err(RunFault::Line(2)), 4, b"line 2 refused\n"),
        (Err(RunFault::Script), 4, b"script: TooLong\n"),
        (
            Err(RunFault::Setup(Fault::Consoles)),
            4,
            b"setup: Consoles\n",
        ),
        (Err(RunFault::Device), 5, b"device fault\n"),
        (Err(RunFault::Lost(1)), 5, b"lost 1\n"),
        (Err(RunFault::Memory), 6, b"memory\n"),
        (Err(RunFault::Show(ShowFault::Memory)), 6, b"memory\n"),
        (Err(RunFault::Setup(Fault::Memory)), 6, b"memory\n"),
    ];
    for (answer, status, text) in rows {
        assert!(rt; reports(rt.alloc(), *answer, *status, text), "{text:?}");
    }
}
