use super::booth::BoothFaults;
use super::rows::{KEPT, PACKETS, SHOWN, TYPED};
use super::{Run, Setting, plain};
use cmd_faults::RunFault;
use devices::memory::Faults;
use std::process::Abort;

// Looks at the clock, and waits, of the short night.
const LOOKS: u64 = 46;

const WAITS: u64 = 19;

fn with_booth(booth: BoothFaults) -> Setting<'static> {
    Setting { booth, ..plain() }
}

// What a night left is the first part of what it leaves where nothing fails.
fn is_part(run: &Run<'_>) -> bool {
    KEPT.starts_with(run.booth.kept.as_slice()) && SHOWN.starts_with(run.booth.shown.as_slice())
}

// A clock or a wait that fails ends the night; what was carried out by then was recorded and shown.
#[test]
fn each_look_at_the_clock_fails(rt: HostRuntime) {
    for passing in 0..LOOKS {
        let moment = Faults::new(passing, 1);
        let setting = with_booth(BoothFaults {
            moment,
            ..plain().booth
        });
        let run = Run::of(&rt, rt.alloc(), &setting, TYPED);
        assert!(rt; run.answer == Err(RunFault::Device), "look {passing}");
        assert!(rt; is_part(&run), "look {passing}");
    }
}

#[test]
fn each_wait_fails(rt: HostRuntime) {
    for passing in 0..WAITS {
        let wait = Faults::new(passing, 1);
        let setting = with_booth(BoothFaults {
            wait,
            ..plain().booth
        });
        let run = Run::of(&rt, rt.alloc(), &setting, TYPED);
        assert!(rt; run.answer == Err(RunFault::Device), "wait {passing}");
        assert!(rt; is_part(&run), "wait {passing}");
    }
}

// No more looks and waits than those.
#[test]
fn no_other_call_fails(rt: HostRuntime) {
    let setting = with_booth(BoothFaults {
        moment: Faults::new(LOOKS, 1),
        wait: Faults::new(WAITS, 1),
        ..plain().booth
    });
    let run = Run::of(&rt, rt.alloc(), &setting, TYPED);
    assert!(rt; run.is(Ok(()), KEPT, SHOWN, PACKETS));
}

// Neither a record nor a screen that fails ends the night, or changes what is offered.
#[test]
fn record_and_screen_fail(rt: HostRuntime) {
    let all = Faults::new(0, 1000);
    let none = plain().booth;
    for (keep, show, kept, shown) in [
        (all, none.show, b"".as_slice(), SHOWN),
        (none.keep, all, KEPT, b"".as_slice()),
        (all, all, b"", b""),
    ] {
        let setting = with_booth(BoothFaults { keep, show, ..none });
        let run = Run::of(&rt, rt.alloc(), &setting, TYPED);
        assert!(rt; run.is(Ok(()), kept, shown, PACKETS));
    }
}

// Sends that fail are shown at their ticks, and counted at the end.
#[test]
fn packets_are_lost(rt: HostRuntime) {
    for (passing, failing, line) in [
        (0, 1, b"0 live 1:x0\n30 ok\n".as_slice()),
        (0, 2, b"0 live 1:x0\n25 live 1:x1\n30 ok\n"),
        (1, 1, b"25 live 1:x1\n30 ok\n"),
    ] {
        let setting = Setting {
            link: Faults::new(passing, failing),
            ..plain()
        };
        let run = Run::of(&rt, rt.alloc(), &setting, TYPED);
        assert!(rt; run.answer == Err(RunFault::Lost(failing)));
        assert!(rt; run.booth.kept.as_slice() == KEPT && run.booth.shown.starts_with(line));
        assert!(rt; run.link.sends.len() == PACKETS);
    }
}

// At the tick of a follow-on the loss stands above the move; at the end of the streams too.
#[test]
fn all_packets_are_lost(rt: HostRuntime) {
    let setting = Setting {
        link: Faults::new(0, 1000),
        ..plain()
    };
    let run = Run::of(&rt, rt.alloc(), &setting, TYPED);
    assert!(rt; run.answer == Err(RunFault::Lost(PACKETS as u64)));
    let follow_on = b"150 live 1:x6\n130 cue 2.5\n160 ok\n";
    let end =
        b"275 live 1:x11\n275 ok\n300 ending 1 1:x12\n325 ending 2 1:x13\n350 ending 3 1:x14\n";
    assert!(rt; holds(run.booth.shown.as_slice(), follow_on));
    assert!(rt; run.booth.shown.ends_with(end));
}

fn holds(text: &[u8], part: &[u8]) -> bool {
    for from in 0..text.len() {
        if text[from..].starts_with(part) {
            return true;
        }
    }
    false
}
