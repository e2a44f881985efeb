ghost use Rattle.std.specs.Prelude.{◌≡◌, ◌≤◌};

use fade_core::{Fader, PlainFader, Rate, StepFader};
use std::alloc::{AllocError, Global};
use std::process::Abort;
use std::test::Fail;

const AT_ONCE: Rate = Rate { time: 0, delay: 0 };

const OVER_1_SECOND: Rate = Rate {
    time: 1000,
    delay: 0,
};

const OVER_2_SECONDS: Rate = Rate {
    time: 2000,
    delay: 0,
};

const OVER_4_SECONDS: Rate = Rate {
    time: 4000,
    delay: 0,
};

const OVER_5_SECONDS: Rate = Rate {
    time: 5000,
    delay: 0,
};

const SLOWEST: Rate = Rate {
    time: 5_999_990,
    delay: 0,
};

const DELAYED: Rate = Rate {
    time: 2000,
    delay: 1000,
};

// How often time moves on.
#[derive(Clone, Copy)]
enum Pace {
    AtOnce,
    EveryMillisecond,
    Every23Milliseconds,
}

fn pass<F: Fader>(fader: &mut F, from: u32, to: u32, pace: Pace)
    requires not_before { F.latest fader.old ≤ from }
    requires later { from ≤ to }
    ensures latest { F.latest fader.new ≡ to }
    ensures channels { F.channels fader.new ≡ F.channels fader.old }
{
    match pace {
        Pace::AtOnce => {}
        Pace::EveryMillisecond => {
            for moment in from..to {
                fader.advance(u64::from(moment));
            }
        }
        Pace::Every23Milliseconds => {
            for tick in 0..(to - from) / 23 {
                fader.advance(u64::from(from) + 23 * u64::from(tick));
            }
        }
    }
    fader.advance(u64::from(to));
}

// The level of the first of four channels, which starts to full at moment 0.
fn level_at<F: Fader>(
    alloc: Global,
    up: Rate,
    moment: u32,
    pace: Pace,
) -> Result<Option<u32>, AllocError> {
    if !up.is_in_range() {
        return Ok(None);
    }
    let mut fader = F::new(alloc, 4)?;
    fader.start(&[(1, 255)], up, AT_ONCE, 0);
    pass(&mut fader, 0, moment, pace);
    Ok(Some(fader.level(1)))
}

// A channel that starts to full at moment 0 is at these levels, with each fader: the moment, how
// the time passes until then, and the level.
fn rises(
    rt: &impl Abort,
    alloc: Global,
    up: Rate,
    rows: &[(u32, Pace, u32)],
) -> Result<(), AllocError> {
    for (moment, pace, level) in rows {
        let plain = level_at::<PlainFader>(alloc, up, *moment, *pace)?;
        let step = level_at::<StepFader>(alloc, up, *moment, *pace)?;
        assert!(rt;
            plain == Some(*level) && step == Some(*level),
            "at {moment}"
        );
    }
    Ok(())
}

// Channel 1 goes to full over five seconds.
fn start_first<F: Fader>(fader: &mut F, moment: u32)
    requires channels { 2 ≤ F.channels fader.old }
    requires not_before { F.latest fader.old ≤ moment }
    ensures latest { F.latest fader.new ≡ moment }
    ensures channels { F.channels fader.new ≡ F.channels fader.old }
{
    fader.start(
        &[(1, 255)],
        OVER_5_SECONDS,
        OVER_5_SECONDS,
        u64::from(moment),
    );
}

// Channel 2 goes to full over two seconds, and channel 1 out over four.
fn start_second<F: Fader>(fader: &mut F, moment: u32)
    requires channels { 2 ≤ F.channels fader.old }
    requires not_before { F.latest fader.old ≤ moment }
    ensures latest { F.latest fader.new ≡ moment }
    ensures channels { F.channels fader.new ≡ F.channels fader.old }
{
    fader.start(
        &[(2, 255)],
        OVER_2_SECONDS,
        OVER_4_SECONDS,
        u64::from(moment),
    );
}

fn levels<F: Fader>(fader: &F) -> (u32, u32)
    requires channels { 2 ≤ F.channels fader.now }
{
    (fader.level(1), fader.level(2))
}

// Whether the levels of both channels are right where the first cue goes at 0 and the second at
// 10000: at 11000, and at 12000 where the first goes again at 11000.
fn crossfades<F: Fader>(alloc: Global) -> Result<bool, AllocError> {
    let pace = Pace::EveryMillisecond;
    let mut fader = F::new(alloc, 4)?;
    start_first(&mut fader, 0);
    pass(&mut fader, 0, 10000, pace);
    start_second(&mut fader, 10000);
    pass(&mut fader, 10000, 11000, pace);
    let crossed = levels(&fader);
    start_first(&mut fader, 11000);
    pass(&mut fader, 11000, 12000, pace);
    Ok(crossed == (48769, 32512) && levels(&fader) == (52020, 26010))
}

#[test]
fn every_millisecond(rt: HostRuntime) -> Result<(), Fail> {
    rises(
        &rt,
        rt.alloc(),
        OVER_5_SECONDS,
        &[
            (2500, Pace::EveryMillisecond, 32512),
            (2510, Pace::EveryMillisecond, 32642),
            (2525, Pace::EveryMillisecond, 32837),
            (5000, Pace::EveryMillisecond, 65025),
        ],
    )?;
    assert!(rt; crossfades::<PlainFader>(rt.alloc())?);
    assert!(rt; crossfades::<StepFader>(rt.alloc())?);
    Ok(())
}

#[test]
fn delayed_rise(rt: HostRuntime) -> Result<(), Fail> {
    rises(
        &rt,
        rt.alloc(),
        DELAYED,
        &[
            (1000, Pace::AtOnce, 0),
            (1001, Pace::AtOnce, 32),
            (2000, Pace::AtOnce, 32512),
            (3000, Pace::AtOnce, 65025),
        ],
    )?;
    Ok(())
}

// Whether a channel is at full at the moment of a start of no time, and the next one is out.
fn is_at_once<F: Fader>(alloc: Global) -> Result<bool, AllocError> {
    let mut fader = F::new(alloc, 4)?;
    fader.start(&[(1, 255)], AT_ONCE, AT_ONCE, 7);
    Ok(levels(&fader) == (65025, 0))
}

#[test]
fn zero_times(rt: HostRuntime) -> Result<(), Fail> {
    assert!(rt; is_at_once::<PlainFader>(rt.alloc())?);
    assert!(rt; is_at_once::<StepFader>(rt.alloc())?);
    Ok(())
}

#[test]
fn slow_fade_exact(rt: HostRuntime) -> Result<(), Fail> {
    rises(
        &rt,
        rt.alloc(),
        SLOWEST,
        &[
            (92, Pace::AtOnce, 0),
            (92, Pace::Every23Milliseconds, 0),
            (93, Pace::AtOnce, 1),
            (93, Pace::Every23Milliseconds, 1),
            (5_999_989, Pace::AtOnce, 65024),
            (5_999_989, Pace::Every23Milliseconds, 65024),
            (5_999_990, Pace::AtOnce, 65025),
            (5_999_990, Pace::Every23Milliseconds, 65025),
        ],
    )?;
    Ok(())
}

// Whether a fader tells that these channels are on their way, and these levels of all four.
fn tells<F: Fader>(fader: &F, moving: &[u16], levels: &[u16; 4]) -> bool {
    fader.moving_channels() == Some(moving) && fader.levels() == Some(levels)
}

// Whether channels are listed until they have arrived.
fn lists_until_arrived<F: Fader>(alloc: Global) -> Result<bool, AllocError> {
    let mut fader = F::new(alloc, 4)?;
    let at_rest = tells(&fader, &[], &[0, 0, 0, 0]);
    fader.start(&[(1, 0), (2, 255), (4, 1)], OVER_1_SECOND, AT_ONCE, 0);
    let started = tells(&fader, &[2, 4], &[0, 0, 0, 0]);
    fader.advance(999);
    let before_end = tells(&fader, &[2, 4], &[0, 64959, 0, 254]);
    fader.advance(1000);
    let arrived = tells(&fader, &[], &[0, 65025, 0, 255]);
    Ok(at_rest && started && before_end && arrived)
}

#[test]
fn moving_channels(rt: HostRuntime) -> Result<(), Fail> {
    assert!(rt; lists_until_arrived::<StepFader>(rt.alloc())?);
    Ok(())
}

// The level of the last channel of a new fader; one that was refused is asked for once more.
fn last_level<F: Fader>(rt: &impl Abort, alloc: Global) -> u32 {
    let fader: F = match F::new(alloc, 4) {
        Ok(fader) => fader,
        Err(AllocError) => F::new(alloc, 4).expect(rt, "memory"),
    };
    fader.level(4)
}

// These pass whichever allocation of `new` fails.
#[test]
fn each_growth_of_plain_refused(rt: HostRuntime) {
    assert!(rt; last_level::<PlainFader>(&rt, rt.alloc()) == 0);
}

#[test]
fn each_growth_of_step_refused(rt: HostRuntime) {
    assert!(rt; last_level::<StepFader>(&rt, rt.alloc()) == 0);
}
