ghost use Rattle.std.specs.Prelude.{◌≡◌, ◌<◌, ◌≤◌};

use super::shows::{Part, TWO_CUES, show_of, show_with};
use fade_core::{Fader, PlainFader, StepFader};
use playback_core::{NoMove, Playback};
use show_core::Show;
use std::alloc::{AllocError, Global};
use std::process::Abort;
use std::test::Fail;

fn levels<F: Fader>(playback: &Playback<F>) -> (u32, u32) {
    (playback.level(1), playback.level(2))
}

// A move with its answer, time that passes, or what is seen after the steps so far.
enum Step {
    Go(Result<u32, NoMove>),
    Back(Result<u32, NoMove>),
    Goto(u32, Result<u32, NoMove>),
    GotoIn(u32, u32, Result<u32, NoMove>),
    Stop,
    Pass,
    Due(bool),
    Current(Option<u32>),
    Levels(u32, u32),
}

fn holds<F: Fader>(
    playback: &mut Playback<F>,
    show: &Show,
    before: u32,
    moment: u32,
    step: &Step,
) -> bool
    requires not_before { F.latest playback.old.fader ≤ before }
    requires later { before ≤ moment }
    ensures { F.latest playback.new.fader ≤ moment }
{
    let now = u64::from(moment);
    match step {
        Step::Go(answer) => playback.go(show, now) == *answer,
        Step::Back(answer) => playback.back(show, now) == *answer,
        Step::Goto(n, answer) => playback.goto(show, *n, now) == *answer,
        Step::GotoIn(n, time, answer) => playback.goto_in(show, *n, *time, now) == *answer,
        Step::Stop => {
            playback.stop(show, now);
            true
        }
        Step::Pass => {
            playback.advance(show, now);
            true
        }
        Step::Due(due) => playback.is_due(now) == *due,
        Step::Current(cue) => playback.current() == *cue,
        Step::Levels(first, second) => levels(playback) == (*first, *second),
    }
}

// A playback takes the steps, each at its moment.
fn take_on<F: Fader>(
    rt: &impl Abort,
    alloc: Global,
    show: &Show,
    steps: &[(u32, Step)],
) -> Result<(), AllocError> {
    let mut playback: Playback<F> = Playback::new(alloc)?;
    let mut now = 0;
    for (moment, step) in steps {
        let before = now;
        now = now.max(*moment);
        assert!(rt;
            holds(&mut playback, show, before, now, step),
            "at {moment}"
        );
    }
    Ok(())
}

// A playback of this show takes the steps, with each fader.
fn take_both(
    rt: &impl Abort,
    alloc: Global,
    show: &Show,
    steps: &[(u32, Step)],
) -> Result<(), Fail> {
    take_on::<PlainFader>(rt, alloc, show, steps)?;
    take_on::<StepFader>(rt, alloc, show, steps)?;
    Ok(())
}

// The same with the show of the two cues and more parts.
fn take_steps(
    rt: &impl Abort,
    alloc: Global,
    more: &[Part],
    steps: &[(u32, Step)],
) -> Result<(), Fail> {
    let show = show_with(alloc, TWO_CUES, more)?;
    take_both(rt, alloc, &show, steps)
}

#[test]
fn go_back_goto(rt: HostRuntime) -> Result<(), Fail> {
    let show = show_of(
        rt.alloc(),
        &[Part::Cue(1000), Part::Cue(1500), Part::Cue(2000)],
    )?;
    take_both(
        &rt,
        rt.alloc(),
        &show,
        &[
            (0, Step::Current(None)),
            (0, Step::Back(Err(NoMove::AtStart))),
            (0, Step::Go(Ok(1000))),
            (0, Step::Go(Ok(1500))),
            (0, Step::Go(Ok(2000))),
            (0, Step::Go(Err(NoMove::AtEnd))),
            (0, Step::Back(Ok(1500))),
            (0, Step::Goto(1750, Err(NoMove::NoCue))),
            (0, Step::Current(Some(1500))),
        ],
    )
}

#[test]
fn follow_at_tick(rt: HostRuntime) -> Result<(), Fail> {
    take_steps(
        &rt,
        rt.alloc(),
        &[Part::Follow(1000, 10000)],
        &[
            (0, Step::Go(Ok(1000))),
            (9999, Step::Due(false)),
            (10000, Step::Due(true)),
            (11000, Step::Pass),
            (11000, Step::Current(Some(2000))),
            (11000, Step::Levels(48769, 32512)),
        ],
    )
}

// No cue follows after a stop, until the next move.
#[test]
fn follow_after_stop(rt: HostRuntime) -> Result<(), Fail> {
    take_steps(
        &rt,
        rt.alloc(),
        &[Part::Follow(1000, 10000)],
        &[
            (0, Step::Go(Ok(1000))),
            (9999, Step::Stop),
            (20000, Step::Pass),
            (20000, Step::Current(Some(1000))),
            (20000, Step::Goto(1000, Ok(1000))),
            (30000, Step::Stop),
            (30000, Step::Current(Some(2000))),
        ],
    )
}

// The first cue is reached at once, and followed at its own time by the second, which takes its own
// times; a move in eight seconds takes these up and down.
#[test]
fn goto_in(rt: HostRuntime) -> Result<(), Fail> {
    take_steps(
        &rt,
        rt.alloc(),
        &[Part::Follow(1000, 10000)],
        &[
            (0, Step::GotoIn(3000, 0, Err(NoMove::NoCue))),
            (0, Step::GotoIn(1000, 0, Ok(1000))),
            (0, Step::Levels(65025, 0)),
            (9999, Step::Due(false)),
            (11000, Step::Pass),
            (11000, Step::Levels(48769, 32512)),
            (20000, Step::GotoIn(1000, 8000, Ok(1000))),
            (22000, Step::Pass),
            (22000, Step::Levels(16256, 48769)),
        ],
    )
}

// The level of the last channel of a new playback; one that was refused is asked for once more.
fn last_level<F: Fader>(rt: &impl Abort, alloc: Global) -> u32 {
    let playback: Playback<F> = match Playback::new(alloc) {
        Ok(playback) => playback,
        Err(AllocError) => Playback::new(alloc).expect(rt, "memory"),
    };
    playback.level(4096)
}

// It passes whichever allocation of `new` fails.
#[test]
fn each_growth_refused(rt: HostRuntime) {
    assert!(rt; last_level::<PlainFader>(&rt, rt.alloc()) == 0);
}
