//! cmd_play's `play` with its seven arguments: empty_show, five_second_fade, keep_alive,
//! play_refusals, play_lost, long_line, base_universe, each_send_fails, each_device_fails,
//! endless_lines and sixteen_universes.

use super::links::TestLink;
use super::own_devices::{Endless, Failing, TestFeed, TestOutput};
use super::rows::{S1, player};
use cmd_faults::RunFault;
use cmd_play::play;
use fade_core::{PlainFader, StepFader};
use show_reader::ShowFault;
use std::alloc::{AllocError, Global};
use std::process::Abort;
use std::test::Fail;

const NONE: Failing = Failing(None);

// A play, and what it left.
#[derive(Drop)]
struct Run {
    answer: Result<(), RunFault>,
    link: TestLink,
    out: TestOutput,
}

impl Run {
    fn is(&self, answer: Result<(), RunFault>, text: &[u8], packets: usize) -> bool {
        self.answer == answer && self.out.has(text) && self.link.sends.len() == packets
    }
}

fn played_with(
    rt: &impl Abort,
    alloc: Global,
    show: &[u8],
    base: u16,
    input: &[u8],
    devices: (Failing, Option<u32>, Failing),
) -> Run {
    let (read, send, write) = devices;
    let mut feed = TestFeed::new(input, 100, read);
    let mut link = match send {
        Some(number) => TestLink::failing(alloc, number),
        None => TestLink::new(alloc),
    };
    let mut out = TestOutput::new(alloc, write);
    let identity = player(rt);
    let answer = play::<StepFader, TestFeed<'_>, TestLink, TestOutput>(
        alloc, show, identity, base, &mut feed, &mut link, &mut out,
    );
    Run { answer, link, out }
}

fn played(rt: &impl Abort, alloc: Global, show: &[u8], base: u16, input: &[u8]) -> Run {
    played_with(rt, alloc, show, base, input, (NONE, None, NONE))
}

#[test]
fn empty_show(rt: HostRuntime) {
    assert!(rt; played(&rt, rt.alloc(), b"", 1, b"0 tick").is(Ok(()), b"0 live\n", 0));
    assert!(rt; played(&rt, rt.alloc(), b"", 1, b"0 go").is(Ok(()), b"0 refused AtEnd\n", 0));
}

const FADE: &[u8] = b"0 go\n0 tick\n2500 tick\n2525 tick\n5000 tick\n";

const FADE_TEXT: &[u8] = b"0 ok\n0 live 1:s0\n2500 live 1:s1\n2525 live 1:s2\n5000 live 1:s3\n";

fn has_slots(link: &TestLink) -> bool {
    link.slot(0) == Some(0)
        && link.slot(1) == Some(127)
        && link.slot(2) == Some(129)
        && link.slot(3) == Some(255)
}

#[test]
fn five_second_fade(rt: HostRuntime) {
    let run = played(&rt, rt.alloc(), S1, 1, FADE);
    assert!(rt; run.is(Ok(()), FADE_TEXT, 4));
    assert!(rt; has_slots(&run.link));
}

#[test]
fn five_second_fade_plain(rt: HostRuntime) {
    let mut feed = TestFeed::new(FADE, 4096, NONE);
    let mut link = TestLink::new(rt.alloc());
    let mut out = TestOutput::new(rt.alloc(), NONE);
    let answer = play::<PlainFader, _, _, _>(
        rt.alloc(),
        S1,
        player(&rt),
        1,
        &mut feed,
        &mut link,
        &mut out,
    );
    assert!(rt; answer == Ok(()) && out.has(FADE_TEXT) && has_slots(&link));
}

// Ticks every 25 ms from 0 to 1675.
fn ticks(alloc: Global) -> Result<String, AllocError> {
    let mut input = String::new(alloc);
    for tick in 0u32..68 {
        input.push_str(format!(in alloc; "{} tick\n", tick * 25)?.as_str())?;
    }
    Ok(input)
}

fn number_at(tick: u32) -> Option<u32> {
    match tick {
        0..=3 => Some(tick),
        35 => Some(4),
        67 => Some(5),
        _ => None,
    }
}

fn tick_line(alloc: Global, tick: u32, lost: Option<u32>) -> Result<String, AllocError> {
    let moment = tick.saturating_mul(25);
    match number_at(tick) {
        None => format!(in alloc; "{moment} live 1:-\n"),
        Some(number) if lost == Some(number) => format!(in alloc; "{moment} live 1:x{number}\n"),
        Some(number) => format!(in alloc; "{moment} live 1:s{number}\n"),
    }
}

fn tick_text(alloc: Global, lost: Option<u32>) -> Result<String, AllocError> {
    let mut text = String::new(alloc);
    for tick in 0u32..68 {
        text.push_str(tick_line(alloc, tick, lost)?.as_str())?;
    }
    Ok(text)
}

#[test]
fn keep_alive(rt: HostRuntime) -> Result<(), Fail> {
    let input = ticks(rt.alloc())?;
    let text = tick_text(rt.alloc(), None)?;
    let run = played(&rt, rt.alloc(), S1, 1, input.as_bytes());
    assert!(rt; run.is(Ok(()), text.as_bytes(), 6));
    Ok(())
}

fn are_numbered(link: &TestLink, lost: u32) -> bool {
    for number in 0u8..6 {
        let failed = u32::from(number) == lost;
        if link.packet(usize::from(number)) != Some((1, number, 0, failed)) {
            return false;
        }
    }
    true
}

#[test]
fn each_send_fails(rt: HostRuntime) -> Result<(), Fail> {
    let input = ticks(rt.alloc())?;
    for lost in 0..6 {
        let text = tick_text(rt.alloc(), Some(lost))?;
        let devices = (NONE, Some(lost), NONE);
        let run = played_with(&rt, rt.alloc(), S1, 1, input.as_bytes(), devices);
        assert!(rt; run.is(Err(RunFault::Lost(1)), text.as_bytes(), 6));
        assert!(rt; are_numbered(&run.link, lost));
    }
    Ok(())
}

#[test]
fn play_refusals(rt: HostRuntime) {
    let alloc = rt.alloc();
    let jump = played(&rt, alloc, S1, 1, b"0 go\n5 jump\n");
    assert!(rt; jump.is(Err(RunFault::Line(2)), b"0 ok\n", 0));
    let back = played(&rt, alloc, S1, 1, b"0 back");
    assert!(rt; back.is(Ok(()), b"0 refused AtStart\n", 0));
    let input = b"0 end\n0 go\n0 tick\n23 tick\n46 tick\n69 tick\n";
    let text = b"0 ok\n0 refused Ended\n0 ending 1 1:s0\n23 ending 2 1:s1\n46 ending 3 1:s2\n\
69 refused Ended\n";
    let ended = played(&rt, alloc, S1, 1, input);
    assert!(rt; ended.is(Ok(()), text, 3));
    assert!(rt; ended.link.packet(2) == Some((1, 2, 0x40, false)));
}

#[test]
fn play_lost(rt: HostRuntime) {
    let devices = (NONE, Some(1), NONE);
    let run = played_with(&rt, rt.alloc(), S1, 1, b"0 go\n0 tick\n25 tick\n", devices);
    let text = b"0 ok\n0 live 1:s0\n25 live 1:x1\n";
    assert!(rt; run.is(Err(RunFault::Lost(1)), text, 2));
}

#[test]
fn long_line(rt: HostRuntime) -> Result<(), Fail> {
    let mut line = vec![in rt.alloc(); b' '; 202]?;
    line[0] = b'0';
    line[2..6].copy_from_slice(b"tick");
    line[201] = b'\n';
    let long = played(&rt, rt.alloc(), S1, 1, line.as_slice());
    assert!(rt; long.is(Err(RunFault::Line(1)), b"", 0));
    line[200] = b'\n';
    let fits = played(&rt, rt.alloc(), S1, 1, &line[..201]);
    assert!(rt; fits.is(Ok(()), b"0 live 1:s0\n", 1));
    Ok(())
}

#[test]
fn refused_at_once(rt: HostRuntime) {
    let alloc = rt.alloc();
    let wide = b"PATCH 1 1<513@FL";
    assert!(rt; played(&rt, alloc, wide, 63999, b"0 tick").is(Err(RunFault::Base), b"", 0));
    assert!(rt; played(&rt, alloc, wide, 63998, b"0 tick").is(Ok(()), b"0 live 63999:s0\n", 1));
    let bad = played(&rt, alloc, b"CUE", 1, b"0 tick");
    assert!(rt; bad.is(Err(RunFault::Show(ShowFault::MissingNumber(1))), b"", 0));
}

const SIXTEEN: &[u8] = b"PATCH 1 1<1@FL 1<513@FL 1<1025@FL 1<1537@FL 1<2049@FL 1<2561@FL \
1<3073@FL 1<3585@FL 1<4097@FL 1<4609@FL 1<5121@FL 1<5633@FL 1<6145@FL 1<6657@FL 1<7169@FL \
1<7681@FL";

#[test]
fn sixteen_universes(rt: HostRuntime) {
    let alloc = rt.alloc();
    let text = b"0 live 1:s0 2:s0 3:s0 4:s0 5:s0 6:s0 7:s0 8:s0 9:s0 10:s0 11:s0 12:s0 13:s0 14:s0 \
15:s0 16:s0\n";
    assert!(rt; played(&rt, alloc, SIXTEEN, 1, b"0 tick").is(Ok(()), text, 16));
    assert!(rt; played(&rt, alloc, SIXTEEN, 63985, b"").is(Err(RunFault::Base), b"", 0));
    assert!(rt; played(&rt, alloc, SIXTEEN, 63984, b"").is(Ok(()), b"", 0));
}

// five_second_fade's first four lines, each with its LF, and then a failed read print four lines.
#[test]
fn each_device_fails(rt: HostRuntime) {
    let alloc = rt.alloc();
    let input = b"0 go\n0 tick\n2500 tick\n2525 tick\n";
    let read = (Failing(Some(1)), None, NONE);
    let run = played_with(&rt, alloc, S1, 1, input, read);
    assert!(rt; run.is(Err(RunFault::Device), &FADE_TEXT[..47], 3));
    for (write, length, packets) in [(0, 0, 0), (1, 5, 1), (2, 17, 2), (3, 32, 3), (4, 47, 4)] {
        let devices = (NONE, None, Failing(Some(write)));
        let run = played_with(&rt, alloc, S1, 1, FADE, devices);
        assert!(rt; run.is(Err(RunFault::Device), &FADE_TEXT[..length], packets));
    }
}

#[test]
fn endless_lines(rt: HostRuntime) {
    let mut feed = Endless;
    let mut link = TestLink::new(rt.alloc());
    let mut out = TestOutput::new(rt.alloc(), NONE);
    let answer = play::<StepFader, _, _, _>(
        rt.alloc(),
        S1,
        player(&rt),
        1,
        &mut feed,
        &mut link,
        &mut out,
    );
    assert!(rt; answer == Err(RunFault::Line(10_000_001)) && out.has(b""));
}
