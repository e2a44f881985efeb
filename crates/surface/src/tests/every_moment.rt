//! fade_core: slow_fade_exact with an `advance` every 23 ms, every_millisecond with one at every
//! millisecond. Contracts see the latest moment as `latest`; a loop of `advance` says that it is
//! not before it.

ghost use Rattle.std.specs.Prelude.{◌≡◌, ◌≤◌};

use fade_core::{Fader, PlainFader, StepFader};
use show_core::Rate;
use std::alloc::{AllocError, Global};
use std::process::Abort;
use std::test::Fail;

const SLOWEST: Rate = Rate {
    time: 5_999_990,
    delay: 0,
};

const TWO: Rate = Rate {
    time: 2000,
    delay: 0,
};

const FOUR: Rate = Rate {
    time: 4000,
    delay: 0,
};

const FIVE: Rate = Rate {
    time: 5000,
    delay: 0,
};

// Advances to each millisecond behind `from`, and to `to`.
fn pass<F: Fader>(fader: &mut F, from: u32, to: u32)
    requires not_before { F.latest fader.old ≤ from }
    requires later { from ≤ to }
    ensures latest { F.latest fader.new ≡ to }
    ensures channels { F.channels fader.new ≡ F.channels fader.old }
{
    for moment in from..to {
        fader.advance(u64::from(moment));
    }
    fader.advance(u64::from(to));
}

// Advances every 23 milliseconds from 0 on, and to `to`.
fn pass_slowly<F: Fader>(fader: &mut F, to: u32)
    requires not_before { F.latest fader.old ≡ 0 }
    ensures latest { F.latest fader.new ≡ to }
    ensures channels { F.channels fader.new ≡ F.channels fader.old }
{
    for tick in 0..to / 23 {
        fader.advance(23 * u64::from(tick));
    }
    fader.advance(u64::from(to));
}

fn slow_rise<F: Fader>(alloc: Global, moment: u32) -> Result<u32, AllocError> {
    let mut fader = F::new(alloc, 4)?;
    fader.start(&[(1, 255)], SLOWEST, SLOWEST, 0);
    pass_slowly(&mut fader, moment);
    Ok(fader.level(1))
}

#[test]
fn slow_fade_exact(rt: HostRuntime) -> Result<(), Fail> {
    for (moment, level) in [(92, 0), (93, 1), (5_999_989, 65024), (5_999_990, 65025)] {
        assert!(rt; slow_rise::<PlainFader>(rt.alloc(), moment)? == level);
        assert!(rt; slow_rise::<StepFader>(rt.alloc(), moment)? == level);
    }
    Ok(())
}

fn crossfade<F: Fader>(rt: &impl Abort, alloc: Global) -> Result<(), AllocError> {
    let mut fader = F::new(alloc, 2)?;
    fader.start(&[(1, 255)], FIVE, FIVE, 0);
    pass(&mut fader, 0, 2500);
    assert!(rt; fader.level(1) == 32512);
    pass(&mut fader, 2500, 2525);
    assert!(rt; fader.level(1) == 32837);
    pass(&mut fader, 2525, 5000);
    assert!(rt; fader.level(1) == 65025);
    pass(&mut fader, 5000, 10_000);
    fader.start(&[(2, 255)], TWO, FOUR, 10_000);
    pass(&mut fader, 10_000, 11_000);
    assert!(rt; fader.level(1) == 48769 && fader.level(2) == 32512);
    fader.start(&[(1, 255)], FIVE, FIVE, 11_000);
    pass(&mut fader, 11_000, 12_000);
    assert!(rt; fader.level(1) == 52020 && fader.level(2) == 26010);
    Ok(())
}

#[test]
fn every_millisecond(rt: HostRuntime) -> Result<(), Fail> {
    crossfade::<PlainFader>(&rt, rt.alloc())?;
    crossfade::<StepFader>(&rt, rt.alloc())?;
    Ok(())
}
