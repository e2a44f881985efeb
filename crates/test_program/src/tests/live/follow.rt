use super::booth::MemoryBooth;
use super::rows::{KEPT, play_offers};
use super::{SMALL, identity, plain};
use arrayvec::ArrayVec;
use cmd_live::{Led, MainConsole, Night, Pause};
use devices::memory::MemoryLink;
use fade_core::{Fader, PlainFader};
use sacn_source::Identity;
use std::alloc::Global;
use std::process::Abort;

// The record of a main in memory: where it asks where the night is, and where it ends.
#[derive(Drop)]
struct MemoryMain<'a> {
    text: &'a [u8],
    // Behind so many lines `where` is typed.
    asks: usize,
    // Behind so many lines it says nothing more.
    ends: usize,
    given: usize,
}

impl<'a> MemoryMain<'a> {
    // It gives these lines, and nothing else happens.
    fn of(text: &'a [u8]) -> Self {
        MemoryMain {
            text,
            asks: usize::MAX,
            ends: usize::MAX,
            given: 0,
        }
    }
}

impl MainConsole for MemoryMain<'_> {
    ghost use Rattle.std.specs.Prelude.{[]};

    ghost tells = { λ _. ⊥ };

    ghost given = { λ _. [] };

    fn next(&mut self) -> Led {
        if self.given == self.asks {
            self.asks = usize::MAX;
            return Led::Where;
        }
        if self.given == self.ends {
            return Led::End;
        }
        let end = self.text.iter().position(|byte| *byte == b'\n');
        let end = end.unwrap_or(self.text.len());
        let mut line = ArrayVec::new();
        let _ = line.try_extend_from_slice(self.text.get(..end).unwrap_or(&[]));
        self.text = self.text.get(end.wrapping_add(1)..).unwrap_or(&[]);
        self.given = self.given.wrapping_add(1);
        Led::Line(line)
    }
}

// Why a new night of the small show pauses, where it follows this main, and where it is then.
fn follow<F: Fader>(
    alloc: Global,
    source: Identity,
    main: &mut MemoryMain<'_>,
    link: &mut MemoryLink,
) -> Option<(Pause, Night<F>)> {
    let Ok(mut night) = Night::<F>::open(alloc, SMALL, source, 1) else {
        return None;
    };
    let pause = night.follow(main, link);
    Some((pause, night))
}

// It offers what the main offers, and ends with it.
#[test]
fn follows_a_main(rt: HostRuntime) {
    let mut main = MemoryMain::of(KEPT);
    let mut link = MemoryLink::new(rt.alloc(), 0, 0);
    let (pause, night): (Pause, Night<PlainFader>) = follow(
        rt.alloc(),
        identity(&rt),
        &mut main,
        &mut link,
    ).expect(&rt, "a night");
    assert!(rt; pause == Pause::Ended && night.is_over() && main.given == 20);
    let whole = play_offers(&rt, rt.alloc(), KEPT);
    assert!(rt; whole.sends.len() == link.sends.len());
    let mut pairs = whole.sends.iter().zip(link.sends.iter());
    assert!(rt; pairs.all(|(one, other)| one.bytes.as_slice() == other.bytes.as_slice()));
}

// It shows where it is; a main that says nothing more is left, and so is one whose line is none.
#[test]
fn following_pauses(rt: HostRuntime) {
    let rows = [
        (
            KEPT,
            8,
            9,
            Pause::Asked,
            b"150 where cue 2.5 master 255\n".as_slice(),
        ),
        (
            KEPT,
            usize::MAX,
            4,
            Pause::Ended,
            b"50 where cue 1 next 2.5 master 255\n",
        ),
        (
            b"0 tick\n10 tick\n",
            9,
            9,
            Pause::Other,
            b"10 where next 1 master 255\n",
        ),
    ];
    for (text, asks, ends, wanted, place) in rows {
        let mut main = MemoryMain {
            asks,
            ends,
            ..MemoryMain::of(text)
        };
        let mut link = MemoryLink::new(rt.alloc(), 0, 0);
        let mut booth = MemoryBooth::new(rt.alloc(), &[], plain().booth);
        let (pause, night): (Pause, Night<PlainFader>) = follow(
            rt.alloc(),
            identity(&rt),
            &mut main,
            &mut link,
        ).expect(&rt, "a night");
        night.show_place(&mut booth, &link);
        assert!(rt; pause == wanted && booth.shown.as_slice() == place);
    }
}
