use super::booth::{Coming, MemoryBooth};
use super::{Run, Setting, plain};

// More lines than `play` takes.
const LINES: u64 = 10_000_002;

const TYPED: &[Coming<'static>] = &[Coming::Typed(0, b"go\nwhere\nend\n")];

// A night of nearly three days, whose lines are counted and not kept: it takes commands to its end.
// Each look at the clock is in time for a tick, so that nothing is heard before the last of them.
// `rt try`, which checks each step, takes minutes for it.
#[test]
fn more_lines_than_play_takes(rt: HostRuntime) {
    let setting = Setting {
        show: b"CUE 7\n",
        ..plain()
    };
    let mut booth = MemoryBooth::new(rt.alloc(), TYPED, setting.booth);
    booth.keeps = false;
    booth.late_looks = LINES - 1;
    let run = Run::over(&rt, rt.alloc(), &setting, booth);
    assert!(rt; run.answer == Ok(()));
    // Behind the ticks there are `go`, `master 0` and `end`, and seven ticks more.
    assert!(rt; run.booth.lines == LINES + 10);
    let shown: &[u8] = b"250000025 ok\n250000025 cue 7\n250000025 where cue 7 master 255\n\
        250000025 ok\n250000125 ok\n";
    assert!(rt; run.booth.shown.as_slice() == shown);
}
