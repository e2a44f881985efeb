ghost use Rattle.std.specs.Prelude.{IfOk};
ghost use Rattle.cmd_live.specs.Stands.{IsPlayable};

use super::booth::{Coming, MemoryBooth};
use super::rows::{KEPT, TYPED, play_offers};
use super::{SMALL, identity, plain};
use cmd_faults::RunFault;
use cmd_live::{Night, Silent};
use devices::memory::{MemoryLink, MemorySend};
use fade_core::{Fader, PlainFader};
use sacn_source::Identity;
use std::alloc::Global;
use std::process::Abort;

// A night of the small show behind the lines of a record, or the number of the first that is none.
fn behind<F: Fader>(alloc: Global, source: Identity, text: &[u8]) -> Result<Night<F>, u64>
    ensures { IfOk result (λ night. IsPlayable F.stands_for night) }
{
    let Ok(mut night) = Night::<F>::open(alloc, SMALL, source, 1) else {
        return Err(0);
    };
    match night.take_up(text, &mut Silent) {
        Ok(_) => Ok(night),
        Err(line) => Err(line),
    }
}

// A night of the small show that begins with a cue.
fn begins_with<F: Fader>(alloc: Global, source: Identity, cue: u32) -> Result<Night<F>, RunFault>
    ensures { IfOk result (λ night. IsPlayable F.stands_for night) }
{
    let mut night = Night::<F>::open(alloc, SMALL, source, 1)?;
    match night.begin_with(cue) {
        Ok(()) => Ok(night),
        Err(fault) => Err(fault),
    }
}

// The first lines of a text, so many of them.
fn first_lines(text: &[u8], count: usize) -> &[u8] {
    let mut left = count;
    for (place, byte) in text.iter().enumerate() {
        if left == 0 {
            return &text[..place];
        }
        if *byte == b'\n' {
            left = left.wrapping_sub(1);
        }
    }
    text
}

fn is_same(one: &MemorySend, other: &MemorySend) -> bool {
    one.universe == other.universe && one.bytes.as_slice() == other.bytes.as_slice()
}

// Behind each line of a record a night goes on: it offers what `play` offers of its lines behind
// those before, number by number.
#[test]
fn night_goes_on_behind_each_line(rt: HostRuntime) {
    let coming = [Coming::Typed(2000, b"go\nend\n")];
    for count in 0..20 {
        let front = first_lines(KEPT, count);
        let mut night: Night<PlainFader> = behind(rt.alloc(), identity(&rt), front).expect(
            &rt, "a night",
        );
        let mut booth = MemoryBooth::new(rt.alloc(), coming.as_slice(), plain().booth);
        let mut link = MemoryLink::new(rt.alloc(), 0, 0);
        let answer = night.live(0, &mut booth, &mut link);
        assert!(rt; answer == Ok(()), "behind {count} lines");
        let mut text = Vec::new(rt.alloc());
        assert!(rt; text.extend_from_slice(front).is_ok());
        assert!(rt; text.extend_from_slice(booth.kept.as_slice()).is_ok());
        let whole = play_offers(&rt, rt.alloc(), text.as_slice());
        let before = whole.sends.len().saturating_sub(link.sends.len());
        let mut pairs = whole.sends.iter().skip(before).zip(link.sends.iter());
        assert!(rt;
            pairs.all(|(one, other)| is_same(one, other)),
            "behind {count} lines"
        );
        assert!(rt;
            play_offers(&rt, rt.alloc(), front).sends.len() == before,
            "behind {count} lines"
        );
    }
}

// The clock goes on at the last moment and what has passed, at most ten seconds; a line that was
// cut is none.
#[test]
fn clock_goes_on(rt: HostRuntime) {
    let text = b"0 tick\n5 go\n25 tick\n31 go\n33 ti";
    let coming = [Coming::Typed(20_000, b"end\n")];
    let rows = [
        (0, b"50 tick\n".as_slice()),
        (100, b"131 tick\n"),
        (3_600_000, b"10031 tick\n"),
    ];
    for (passed, first) in rows {
        let mut night: Night<PlainFader> = behind(rt.alloc(), identity(&rt), text).expect(
            &rt, "a night",
        );
        assert!(rt; night.moment() == 31 && !night.is_over());
        let mut booth = MemoryBooth::new(rt.alloc(), coming.as_slice(), plain().booth);
        let mut link = MemoryLink::new(rt.alloc(), 0, 0);
        assert!(rt; night.live(passed, &mut booth, &mut link) == Ok(()));
        assert!(rt;
            booth.kept.as_slice().starts_with(first),
            "behind {passed} ms"
        );
    }
}

// What no live night gives: by the number of the line.
#[test]
fn records_of_none(rt: HostRuntime) {
    let rows = [
        (b"0 tick\n10 tick\n".as_slice(), 2),
        (b"0 tick\n10 go\n9 go\n", 3),
        (b"0 tick\n! 3 lines are missing\n75 tick\n", 2),
        (b"0 tick\n\n", 2),
        (b"0 tick\n1 go \n00 tick\n", 3),
        (b"5 end\n5 tick\n6 go\n", 3),
    ];
    for (place, (text, line)) in rows.into_iter().enumerate() {
        let night = behind::<PlainFader>(rt.alloc(), identity(&rt), text);
        assert!(rt; night.err() == Some(line), "record {place}");
    }
}

// An `end` and the ticks behind it are taken up too: then nothing comes any more.
#[test]
fn night_is_over(rt: HostRuntime) {
    let mut night: Night<PlainFader> = behind(rt.alloc(), identity(&rt), KEPT).expect(
        &rt, "a night",
    );
    assert!(rt; night.is_over() && night.moment() == 350);
    let mut booth = MemoryBooth::new(rt.alloc(), TYPED, plain().booth);
    let mut link = MemoryLink::new(rt.alloc(), 0, 0);
    assert!(rt; night.live(0, &mut booth, &mut link) == Ok(()));
    assert!(rt; booth.kept.is_empty() && link.sends.is_empty());
}

// A night begins with a cue: its first packet has it at full.
#[test]
fn begins_with_a_cue(rt: HostRuntime) {
    let none = begins_with::<PlainFader>(rt.alloc(), identity(&rt), 3000);
    assert!(rt; none.err() == Some(RunFault::NoCue));
    let mut night: Night<PlainFader> = begins_with(rt.alloc(), identity(&rt), 2500).expect(
        &rt, "a night",
    );
    let coming = [Coming::Typed(30, b"end\n")];
    let mut booth = MemoryBooth::new(rt.alloc(), coming.as_slice(), plain().booth);
    let mut link = MemoryLink::new(rt.alloc(), 0, 0);
    assert!(rt; night.live(0, &mut booth, &mut link) == Ok(()));
    assert!(rt;
        booth
            .kept
            .as_slice()
            .starts_with(b"0 goto 2.5 in 0\n0 tick\n25 tick\n")
    );
    assert!(rt; booth.shown.as_slice().starts_with(b"0 ok\n0 cue 2.5\n"));
    let first = link.sends.get(0).expect(&rt, "a packet");
    assert!(rt; first.bytes.get(126) == Some(&0) && first.bytes.get(127) == Some(&255));
}
