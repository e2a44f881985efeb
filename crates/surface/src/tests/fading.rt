//! fade_core: delayed_rise, zero_times, slow_fade_exact by a single `advance`, and the fine
//! levels of five_second_fade, split_crossfade and goto_mid_fade, each with both faders. The rows
//! with an `advance` at every moment are in `every_moment`.

use fade_core::{Fader, PlainFader, StepFader};
use show_core::Rate;
use std::alloc::{AllocError, Global};
use std::process::Abort;
use std::test::Fail;

const AT_ONCE: Rate = Rate { time: 0, delay: 0 };

const DELAYED: Rate = Rate {
    time: 2000,
    delay: 1000,
};

const SLOWEST: Rate = Rate {
    time: 5_999_990,
    delay: 0,
};

fn of_seconds(seconds: u16) -> Rate {
    Rate {
        time: u32::from(seconds) * 1000,
        delay: 0,
    }
}

fn rises_late<F: Fader>(rt: &impl Abort, alloc: Global) -> Result<(), AllocError> {
    let mut fader = F::new(alloc, 4)?;
    fader.start(&[(1, 255)], DELAYED, AT_ONCE, 0);
    fader.advance(1000);
    assert!(rt; fader.level(1) == 0);
    fader.advance(1001);
    assert!(rt; fader.level(1) == 32);
    fader.advance(2000);
    assert!(rt; fader.level(1) == 32512);
    fader.advance(3000);
    assert!(rt; fader.level(1) == 65025);
    assert!(rt; fader.level(4) == 0);
    Ok(())
}

#[test]
fn delayed_rise(rt: HostRuntime) -> Result<(), Fail> {
    rises_late::<PlainFader>(&rt, rt.alloc())?;
    rises_late::<StepFader>(&rt, rt.alloc())?;
    Ok(())
}

fn rises_at_once<F: Fader>(rt: &impl Abort, alloc: Global) -> Result<(), AllocError> {
    let mut fader = F::new(alloc, 4)?;
    fader.start(&[(1, 255)], AT_ONCE, AT_ONCE, 7);
    assert!(rt; fader.level(1) == 65025);
    Ok(())
}

#[test]
fn zero_times(rt: HostRuntime) -> Result<(), Fail> {
    rises_at_once::<PlainFader>(&rt, rt.alloc())?;
    rises_at_once::<StepFader>(&rt, rt.alloc())?;
    Ok(())
}

fn slow_rise<F: Fader>(rt: &impl Abort, alloc: Global) -> Result<(), AllocError> {
    let mut fader = F::new(alloc, 4)?;
    fader.start(&[(1, 255)], SLOWEST, SLOWEST, 0);
    fader.advance(92);
    assert!(rt; fader.level(1) == 0);
    fader.advance(93);
    assert!(rt; fader.level(1) == 1);
    fader.advance(5_999_989);
    assert!(rt; fader.level(1) == 65024);
    fader.advance(5_999_990);
    assert!(rt; fader.level(1) == 65025);
    Ok(())
}

#[test]
fn slow_fade_exact(rt: HostRuntime) -> Result<(), Fail> {
    slow_rise::<PlainFader>(&rt, rt.alloc())?;
    slow_rise::<StepFader>(&rt, rt.alloc())?;
    Ok(())
}

// S1's cue 1 at 0, cue 2 at 10000, cue 1 again at 11000.
fn crossfade<F: Fader>(rt: &impl Abort, alloc: Global) -> Result<(), AllocError> {
    let mut fader = F::new(alloc, 2)?;
    fader.start(&[(1, 255)], of_seconds(5), of_seconds(5), 0);
    assert!(rt; fader.level(1) == 0);
    fader.advance(2500);
    assert!(rt; fader.level(1) == 32512);
    fader.advance(2510);
    assert!(rt; fader.level(1) == 32642);
    fader.advance(2525);
    assert!(rt; fader.level(1) == 32837);
    fader.advance(5000);
    assert!(rt; fader.level(1) == 65025);
    fader.start(&[(2, 255)], of_seconds(2), of_seconds(4), 10_000);
    fader.advance(11_000);
    assert!(rt; fader.level(1) == 48769 && fader.level(2) == 32512);
    fader.start(&[(1, 255)], of_seconds(5), of_seconds(5), 11_000);
    fader.advance(12_000);
    assert!(rt; fader.level(1) == 52020 && fader.level(2) == 26010);
    Ok(())
}

#[test]
fn goto_mid_fade(rt: HostRuntime) -> Result<(), Fail> {
    crossfade::<PlainFader>(&rt, rt.alloc())?;
    crossfade::<StepFader>(&rt, rt.alloc())?;
    Ok(())
}
