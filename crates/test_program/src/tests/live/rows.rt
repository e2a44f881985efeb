use super::booth::Coming;
use super::{Run, SMALL, Setting, identity, plain};
use cmd_faults::RunFault;
use cmd_play::play;
use devices::memory::{MemoryFeed, MemoryLink, MemoryOutput};
use fade_core::PlainFader;
use std::alloc::Global;
use std::process::Abort;

// Behind an arrow key a GO is a GO; the first cue is followed; lines that are refused or ask for
// something change nothing; then the light goes down, and the streams end.
pub const TYPED: &[Coming<'static>] = &[
    Coming::Typed(30, b"\x1b[Ago\nwhere\n"),
    Coming::Typed(160, b"sub 1 FL\ngo 4\nhelp\n"),
    Coming::Typed(170, b"go\nwhe"),
    Coming::Typed(172, b"re\n\x1bOP\n"),
    Coming::Typed(180, b"end\ngo\n"),
];

pub const KEPT: &[u8] = b"0 tick\n25 tick\n30 go\n50 tick\n75 tick\n100 tick\n125 tick\n150 tick\n\
160 sub 1 FL\n170 go\n175 tick\n180 master 0\n200 tick\n225 tick\n250 tick\n275 tick\n275 end\n\
300 tick\n325 tick\n350 tick\n";

pub const SHOWN: &[u8] =
    b"30 ok\n30 cue 1\n30 where cue 1 next 2.5 master 255\n130 cue 2.5\n160 ok\n\
go, back              the next cue, the one before\n\
goto 4.5              this cue; goto 4.5 in 3: in three seconds, goto 4.5 in 0: at once\n\
sub 3 50, group 1 FL  a submaster, a group: 0 to 100 percent, FL, or H00 to HFF\n\
master 80             the grand master\n\
where                 the current cue, the next one, and what masters are at\n\
end                   ends the night, dark; leave: receivers keep the light or drop it\n\
170 refused AtEnd\n172 where cue 2.5 master 255 sub 1:255\n180 ok\n275 ok\n";

const TOLD: &[u8] = b"keys\ngo 4: go takes no number; goto 4 goes to a cue\n\
?OP: arrow and function keys do nothing; help lists the commands\ngo: the night is ending\n";

// Slot 1 of the packet of each tick.
const LEVELS: [u8; 15] = [0, 0, 255, 255, 255, 255, 0, 128, 0, 0, 0, 0, 0, 0, 0];

pub const PACKETS: usize = LEVELS.len();

#[test]
fn short_night(rt: HostRuntime) {
    let run = Run::of(&rt, rt.alloc(), &plain(), TYPED);
    assert!(rt; run.is(Ok(()), KEPT, SHOWN, PACKETS));
    assert!(rt; run.booth.told.as_slice() == TOLD);
    for (place, level) in LEVELS.iter().enumerate() {
        assert!(rt; run.slot(place) == Some(*level), "packet {place}");
    }
}

// What `play` offers of the record that a night left.
pub fn play_offers(rt: &impl Abort, alloc: Global, kept: &[u8]) -> MemoryLink {
    let mut feed = MemoryFeed::new(kept, 4096, 0, 0);
    let mut link = MemoryLink::new(alloc, 0, 0);
    let mut out = MemoryOutput::new(alloc, 0, 0);
    let answer = play::<PlainFader, _, _, _>(
        alloc,
        SMALL,
        identity(rt),
        1,
        &mut feed,
        &mut link,
        &mut out,
    );
    assert!(rt; answer == Ok(()));
    link
}

#[test]
fn record_is_the_night(rt: HostRuntime) {
    let run = Run::of(&rt, rt.alloc(), &plain(), TYPED);
    let link = play_offers(&rt, rt.alloc(), run.booth.kept.as_slice());
    assert!(rt; link.sends.len() == PACKETS);
    for (live, played) in run.link.sends.iter().zip(link.sends.iter()) {
        assert!(rt; live.universe == played.universe);
        assert!(rt; live.bytes.as_slice() == played.bytes.as_slice());
    }
}

// A night ends with its input where it is to, also by a last line without LF.
#[test]
fn input_ends(rt: HostRuntime) {
    let coming = [Coming::Typed(3, b"go"), Coming::Closed(3, true)];
    let run = Run::of(&rt, rt.alloc(), &plain(), coming.as_slice());
    let kept = b"0 tick\n3 go\n3 master 0\n25 tick\n50 tick\n75 tick\n100 tick\n100 end\n\
        125 tick\n150 tick\n175 tick\n";
    // What the move lights, the grand master takes away: no frame changes.
    assert!(rt; run.is(Ok(()), kept, b"3 ok\n3 cue 1\n3 ok\n100 ok\n", 7));
}

// Else the light holds, until the night is left: then nothing is dark before the streams end.
#[test]
fn input_ends_and_light_holds(rt: HostRuntime) {
    let coming = [
        Coming::Closed(3, false),
        Coming::Typed(60, b"sub 1 FL\nleave\n"),
    ];
    let run = Run::of(&rt, rt.alloc(), &plain(), coming.as_slice());
    let kept = b"0 tick\n25 tick\n50 tick\n60 sub 1 FL\n60 end\n75 tick\n100 tick\n125 tick\n";
    assert!(rt; run.is(Ok(()), kept, b"60 ok\n60 ok\n", 6));
}

// Before a night begins nothing is heard: neither the clock nor the input is asked.
#[test]
fn no_night(rt: HostRuntime) {
    let wide = b"PATCH 1 1<1@FL 1<513@FL\n";
    let rows = [
        (b"CUE x\n".as_slice(), 1, false),
        (wide.as_slice(), 63999, true),
    ];
    for (show, base, is_base) in rows {
        let setting = Setting {
            show,
            base,
            ..plain()
        };
        let run = Run::of(&rt, rt.alloc(), &setting, TYPED);
        assert!(rt; (run.answer == Err(RunFault::Base)) == is_base);
        assert!(rt; run.is(run.answer, b"", b"", 0) && run.booth.told.is_empty());
    }
}

// Where an allocation of the show's or the console's fails, nothing was offered, recorded or shown.
// Those of the booth and of the link come later.
#[test]
fn each_growth_refused(rt: HostRuntime) {
    let mut run = Run::of(&rt, rt.alloc(), &plain(), TYPED);
    let is_refused = run.answer == Err(RunFault::Memory);
    assert!(rt; !is_refused || run.is(Err(RunFault::Memory), b"", b"", 0));
    assert!(rt; is_refused || run.answer == Ok(()));
    if is_refused || run.booth.full || run.link.full {
        run = Run::of(&rt, rt.alloc(), &plain(), TYPED);
    }
    assert!(rt; run.is(Ok(()), KEPT, SHOWN, PACKETS));
}
