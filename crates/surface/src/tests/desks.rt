//! desk_core: five_second_fade, split_crossfade, goto_mid_fade, submaster_and_grand,
//! universe_limit, play_refusals, desk_refusals, after_end, dark_before_first_tick,
//! follow_at_tick, follow_then_go, follow_after_goto and follow_zero, each with both faders.

use super::rows::{FOLLOWED, FOLLOWED_AT_ONCE, S1, are_slots, show_of};
use arrayvec::ArrayVec;
use desk_core::{Command, Desk, Refused, Ticked};
use fade_core::{Fader, PlainFader, StepFader};
use patch_core::RigFault;
use show_core::Show;
use std::alloc::Global;
use std::process::Abort;
use std::test::Fail;

const TOO_LARGE: u64 = 281_474_976_710_656;

// Whether the first universe's slots 1 and 2 are these, and its others 0.
fn has_slots<F: Fader>(desk: &Desk<F>, first: u8, second: u8) -> bool {
    let universes: ArrayVec<u16, 16> = desk.universes();
    match universes.as_slice() {
        [number, ..] => {
            let slots: &[u8; 512] = desk.slots(*number);
            are_slots(slots, first, second)
        }
        [] => false,
    }
}

// A call with its answer, or what is seen after the calls so far.
enum Step {
    Order(u64, Command, Result<(), Refused>),
    Tick(u64, Result<Ticked, Refused>),
    Slots(u8, u8),
    Current(Option<u32>),
}

use Step::{Current, Order, Slots, Tick};

const OK: Result<(), Refused> = Ok(());

const LIVE: Result<Ticked, Refused> = Ok(Ticked::Live);

fn holds<F: Fader>(desk: &mut Desk<F>, step: &Step) -> bool {
    match step {
        Order(moment, command, answer) => desk.command(*moment, *command) == *answer,
        Tick(moment, answer) => desk.tick(*moment) == *answer,
        Slots(first, second) => has_slots(desk, *first, *second),
        Current(cue) => desk.current() == *cue,
    }
}

fn take<F: Fader>(
    rt: &impl Abort,
    alloc: Global,
    show: &Show,
    steps: &[Step],
) -> Result<(), RigFault> {
    let mut desk = Desk::<F>::open(alloc, show, 1)?;
    for (place, step) in steps.iter().enumerate() {
        assert!(rt; holds(&mut desk, step), "step {place}");
    }
    Ok(())
}

// A desk of the show of this text takes the steps, with each fader.
fn take_steps(rt: &impl Abort, alloc: Global, text: &[u8], steps: &[Step]) -> Result<(), Fail> {
    let show = show_of(alloc, text)?;
    take::<PlainFader>(rt, alloc, &show, steps)?;
    take::<StepFader>(rt, alloc, &show, steps)?;
    Ok(())
}

#[test]
fn desk_refusals(rt: HostRuntime) -> Result<(), Fail> {
    take_steps(
        &rt,
        rt.alloc(),
        S1,
        &[
            Tick(100, LIVE),
            Order(99, Command::Go, Err(Refused::Backwards)),
            Tick(110, Err(Refused::TooSoon)),
            Tick(TOO_LARGE, Err(Refused::MomentTooLarge)),
            Order(100, Command::Goto(3000), Err(Refused::NoCue)),
            Order(100, Command::Sub(2, 1), Err(Refused::NoSub)),
            Order(100, Command::Group(1, 1), Err(Refused::NoGroup)),
            Order(100, Command::Go, OK),
        ],
    )
}

#[test]
fn after_end(rt: HostRuntime) -> Result<(), Fail> {
    take_steps(
        &rt,
        rt.alloc(),
        S1,
        &[
            Order(200, Command::End, OK),
            Order(TOO_LARGE, Command::Go, Err(Refused::MomentTooLarge)),
            Order(200, Command::Go, Err(Refused::Ended)),
        ],
    )
}

#[test]
fn dark_before_first_tick(rt: HostRuntime) -> Result<(), Fail> {
    take_steps(
        &rt,
        rt.alloc(),
        S1,
        &[
            Slots(0, 0),
            Order(0, Command::Sub(1, 255), OK),
            Slots(0, 0),
            Tick(0, LIVE),
            Slots(128, 0),
        ],
    )
}

#[test]
fn five_second_fade(rt: HostRuntime) -> Result<(), Fail> {
    take_steps(
        &rt,
        rt.alloc(),
        S1,
        &[
            Current(None),
            Order(0, Command::Go, OK),
            Current(Some(1000)),
            Tick(0, LIVE),
            Slots(0, 0),
            Tick(2500, LIVE),
            Slots(127, 0),
            Tick(2525, LIVE),
            Slots(129, 0),
            Tick(5000, LIVE),
            Slots(255, 0),
        ],
    )?;
    take_steps(
        &rt,
        rt.alloc(),
        S1,
        &[Order(0, Command::Go, OK), Tick(2510, LIVE), Slots(128, 0)],
    )
}

#[test]
fn goto_mid_fade(rt: HostRuntime) -> Result<(), Fail> {
    take_steps(
        &rt,
        rt.alloc(),
        S1,
        &[
            Order(0, Command::Go, OK),
            Order(10_000, Command::Go, OK),
            Tick(11_000, LIVE),
            Slots(191, 127),
            Order(11_000, Command::Goto(1000), OK),
            Tick(12_000, LIVE),
            Slots(204, 102),
        ],
    )
}

#[test]
fn submaster_and_grand(rt: HostRuntime) -> Result<(), Fail> {
    take_steps(
        &rt,
        rt.alloc(),
        S1,
        &[
            Order(0, Command::Sub(1, 128), OK),
            Tick(0, LIVE),
            Slots(64, 0),
            Order(25, Command::Sub(1, 255), OK),
            Tick(25, LIVE),
            Slots(128, 0),
            Order(100, Command::Go, OK),
            Tick(5100, LIVE),
            Slots(255, 0),
            Order(5125, Command::Master(128), OK),
            Tick(5125, LIVE),
            Slots(128, 0),
        ],
    )
}

#[test]
fn play_refusals(rt: HostRuntime) -> Result<(), Fail> {
    take_steps(
        &rt,
        rt.alloc(),
        S1,
        &[
            Order(0, Command::Back, Err(Refused::AtStart)),
            Order(0, Command::Go, OK),
            Order(0, Command::Go, OK),
            Order(0, Command::Go, Err(Refused::AtEnd)),
            Order(0, Command::Back, OK),
            Order(0, Command::End, OK),
            Order(0, Command::Go, Err(Refused::Ended)),
            Tick(0, Ok(Ticked::Ending(1))),
            Slots(0, 0),
            Tick(23, Ok(Ticked::Ending(2))),
            Tick(46, Ok(Ticked::Ending(3))),
            Tick(69, Err(Refused::Ended)),
        ],
    )
}

#[test]
fn follow_at_tick(rt: HostRuntime) -> Result<(), Fail> {
    take_steps(
        &rt,
        rt.alloc(),
        FOLLOWED,
        &[
            Order(0, Command::Go, OK),
            Order(10_000, Command::Go, Err(Refused::AtEnd)),
            Tick(11_000, LIVE),
            Slots(191, 127),
            Current(Some(2000)),
        ],
    )
}

#[test]
fn follow_after_goto(rt: HostRuntime) -> Result<(), Fail> {
    take_steps(
        &rt,
        rt.alloc(),
        FOLLOWED,
        &[
            Order(0, Command::Go, OK),
            Order(5000, Command::Goto(1000), OK),
            Tick(10_000, LIVE),
            Current(Some(1000)),
            Tick(15_000, LIVE),
            Current(Some(2000)),
            Tick(16_000, LIVE),
            Slots(191, 127),
        ],
    )
}

#[test]
fn follow_zero(rt: HostRuntime) -> Result<(), Fail> {
    take_steps(
        &rt,
        rt.alloc(),
        FOLLOWED_AT_ONCE,
        &[
            Order(0, Command::Go, OK),
            Current(Some(1000)),
            Tick(0, LIVE),
            Slots(0, 0),
            Current(Some(2000)),
            Tick(1000, LIVE),
            Slots(0, 127),
        ],
    )
}

fn numbers_of<F: Fader>(
    alloc: Global,
    show: &Show,
    base: u16,
) -> Result<ArrayVec<u16, 16>, RigFault> {
    let desk = Desk::<F>::open(alloc, show, base)?;
    Ok(desk.universes())
}

#[test]
fn universe_limit(rt: HostRuntime) -> Result<(), Fail> {
    let alloc = rt.alloc();
    let show = show_of(alloc, b"PATCH 1 1<513@FL")?;
    assert!(rt; numbers_of::<StepFader>(alloc, &show, 63998)?.as_slice() == [63999].as_slice());
    let refused = numbers_of::<StepFader>(alloc, &show, 63999);
    assert!(rt; matches!(refused, Err(RigFault::Universe)));
    let show = show_of(alloc, b"PATCH 1 1<1@FL 0<1@FL")?;
    assert!(rt; numbers_of::<PlainFader>(alloc, &show, 1)?.is_empty());
    Ok(())
}
