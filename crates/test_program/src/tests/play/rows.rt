use super::{FADE, FADE_TEXT, PLAIN, Run, Setting, play_each};
use cmd_faults::RunFault;
use std::alloc::Global;
use std::process::Abort;

// Whether a play prints this, and the first slots of its packets are at these levels.
fn fades(rt: &impl Abort, alloc: Global, input: &[u8], text: &[u8], levels: &[u8]) -> bool {
    let run = Run::of(rt, alloc, &PLAIN, input);
    for (place, level) in levels.iter().enumerate() {
        if run.slot(place) != Some(*level) {
            return false;
        }
    }
    run.is(Ok(()), text, levels.len())
}

#[test]
fn five_second_fade(rt: HostRuntime) {
    assert!(rt; fades(&rt, rt.alloc(), FADE, FADE_TEXT, &[0, 127, 129, 255]));
}

// Where an allocation of the console's or the show's fails, nothing was offered or printed. The
// output's own allocation is the last.
#[test]
fn each_growth_refused(rt: HostRuntime) {
    let mut run = Run::of(&rt, rt.alloc(), &PLAIN, b"0 go\n");
    let is_refused = run.answer == Err(RunFault::Memory);
    assert!(rt; !is_refused || run.is(Err(RunFault::Memory), b"", 0));
    if is_refused || run.out.full {
        run = Run::of(&rt, rt.alloc(), &PLAIN, b"0 go\n");
    }
    assert!(rt; run.is(Ok(()), b"0 ok\n", 0));
}

#[test]
fn play_lost(rt: HostRuntime) {
    play_each(
        &rt,
        rt.alloc(),
        &Setting { send: 1, ..PLAIN },
        &[(
            b"0 go\n0 tick\n25 tick\n",
            Err(RunFault::Lost(1)),
            b"0 ok\n0 live 1:s0\n25 live 1:x1\n",
            2,
        )],
    );
}
