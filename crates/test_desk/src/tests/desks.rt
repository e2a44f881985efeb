use super::shows::{Part, TWO_CUES, show_of, show_with};
use desk_core::{Command, Desk, Refused, Ticked};
use fade_core::{Fader, PlainFader, StepFader};
use patch_core::RigFault;
use show_core::{BuildFault, Show};
use std::alloc::Global;
use std::process::Abort;
use std::test::Fail;

const TOO_LARGE: u64 = 281_474_976_710_656;

// Beside the two cues: submaster 1 with channel 1 at half, and dimmers 1 and 2, which are patched
// to channels 1 and 2 at full.
const MORE: &[Part] = &[
    Part::Sub(1, 1, 128),
    Part::Patch(1, 1, 255),
    Part::Patch(2, 2, 255),
];

// Whether slots 1 and 2 of the first universe are these, and the others 0.
fn has_slots<F: Fader>(desk: &Desk<F>, first: u8, second: u8) -> bool {
    let universes = desk.universes();
    match universes.as_slice() {
        [number, ..] => {
            let frame = desk.slots(*number);
            frame[0] == first && frame[1] == second && frame[2..] == [0; 510]
        }
        [] => false,
    }
}

// How many universes a desk has, and the number of the first.
fn numbers<F: Fader>(desk: &Desk<F>) -> (usize, Option<u16>) {
    let universes = desk.universes();
    (universes.len(), universes.first().copied())
}

// A call with its answer, or what is seen after the calls so far.
enum Step {
    Order(u64, Command, Result<(), Refused>),
    GotoIn(u64, u32, u32, Result<(), Refused>),
    Tick(u64, Result<Ticked, Refused>),
    Slots(u8, u8),
    Current(Option<u32>),
}

fn holds<F: Fader>(desk: &mut Desk<F>, step: &Step) -> bool {
    match step {
        Step::Order(moment, command, answer) => desk.command(*moment, *command) == *answer,
        Step::GotoIn(moment, cue, time, answer) => desk.goto_in(*moment, *cue, *time) == *answer,
        Step::Tick(moment, answer) => desk.tick(*moment) == *answer,
        Step::Slots(first, second) => has_slots(desk, *first, *second),
        Step::Current(cue) => desk.current() == *cue,
    }
}

// A desk of this show takes the steps.
fn take_on<F: Fader>(
    rt: &impl Abort,
    alloc: Global,
    show: &Show,
    steps: &[Step],
) -> Result<(), RigFault> {
    let mut desk: Desk<F> = Desk::open(alloc, show, 1)?;
    for (place, step) in steps.iter().enumerate() {
        assert!(rt; holds(&mut desk, step), "step {place}");
    }
    Ok(())
}

fn take_on_each(rt: &impl Abort, alloc: Global, show: &Show, steps: &[Step]) -> Result<(), Fail> {
    take_on::<PlainFader>(rt, alloc, show, steps)?;
    take_on::<StepFader>(rt, alloc, show, steps)?;
    Ok(())
}

// A desk of the small show takes the steps, with each fader.
fn take_steps(rt: &impl Abort, alloc: Global, steps: &[Step]) -> Result<(), Fail> {
    let show = show_with(alloc, TWO_CUES, MORE)?;
    take_on_each(rt, alloc, &show, steps)
}

#[test]
fn desk_refusals(rt: HostRuntime) -> Result<(), Fail> {
    take_steps(
        &rt,
        rt.alloc(),
        &[
            Step::Tick(100, Ok(Ticked::Live)),
            Step::Order(99, Command::Go, Err(Refused::Backwards)),
            Step::Tick(110, Err(Refused::TooSoon)),
            Step::Tick(TOO_LARGE, Err(Refused::MomentTooLarge)),
            Step::Order(100, Command::Goto(3000), Err(Refused::NoCue)),
            Step::Order(100, Command::Sub(2, 1), Err(Refused::NoSub)),
            Step::Order(100, Command::Group(1, 1), Err(Refused::NoGroup)),
            Step::Current(None),
            Step::Order(100, Command::Go, Ok(())),
            Step::Current(Some(1000)),
        ],
    )
}

#[test]
fn after_end(rt: HostRuntime) -> Result<(), Fail> {
    take_steps(
        &rt,
        rt.alloc(),
        &[
            Step::Order(200, Command::End, Ok(())),
            Step::Order(TOO_LARGE, Command::Go, Err(Refused::MomentTooLarge)),
            Step::Order(200, Command::Go, Err(Refused::Ended)),
            Step::Order(200, Command::Goto(3000), Err(Refused::Ended)),
            Step::Order(200, Command::Master(128), Err(Refused::Ended)),
            Step::Order(200, Command::End, Err(Refused::Ended)),
        ],
    )
}

#[test]
fn dark_before_first_tick(rt: HostRuntime) -> Result<(), Fail> {
    take_steps(
        &rt,
        rt.alloc(),
        &[
            Step::Slots(0, 0),
            Step::Order(0, Command::Sub(1, 255), Ok(())),
            Step::Slots(0, 0),
            Step::Tick(0, Ok(Ticked::Live)),
            Step::Slots(128, 0),
        ],
    )
}

// The allocations of the tests below are those of this one: a desk that is open takes no memory.
#[test]
fn opens(rt: HostRuntime) -> Result<(), Fail> {
    take_steps(&rt, rt.alloc(), &[])
}

// Ticks that draw all levels, some of them and none, to the end.
#[test]
fn goto_mid_fade(rt: HostRuntime) -> Result<(), Fail> {
    take_steps(
        &rt,
        rt.alloc(),
        &[
            Step::Order(0, Command::Go, Ok(())),
            Step::Tick(0, Ok(Ticked::Live)),
            Step::Slots(0, 0),
            Step::Tick(2500, Ok(Ticked::Live)),
            Step::Slots(127, 0),
            Step::Tick(2525, Ok(Ticked::Live)),
            Step::Slots(129, 0),
            Step::Tick(5000, Ok(Ticked::Live)),
            Step::Slots(255, 0),
            Step::Tick(5025, Ok(Ticked::Live)),
            Step::Order(10000, Command::Go, Ok(())),
            Step::Tick(11000, Ok(Ticked::Live)),
            Step::Slots(191, 127),
            Step::Order(11000, Command::Goto(1000), Ok(())),
            Step::Tick(12000, Ok(Ticked::Live)),
            Step::Slots(204, 102),
            Step::Order(12000, Command::Back, Err(Refused::AtStart)),
            Step::Order(12000, Command::End, Ok(())),
            Step::Tick(12025, Ok(Ticked::Ending(1))),
        ],
    )
}

#[test]
fn goto_in_mid_fade(rt: HostRuntime) -> Result<(), Fail> {
    take_steps(
        &rt,
        rt.alloc(),
        &[
            Step::Order(0, Command::Go, Ok(())),
            Step::GotoIn(2500, 2000, 8000, Ok(())),
            Step::Tick(4500, Ok(Ticked::Live)),
            Step::Slots(96, 64),
            Step::GotoIn(2499, 1000, 0, Err(Refused::Backwards)),
            Step::GotoIn(4500, 3000, 0, Err(Refused::NoCue)),
            Step::Order(4500, Command::End, Ok(())),
            Step::GotoIn(4500, 1000, 0, Err(Refused::Ended)),
        ],
    )
}

#[test]
fn submaster_and_grand(rt: HostRuntime) -> Result<(), Fail> {
    take_steps(
        &rt,
        rt.alloc(),
        &[
            Step::Order(0, Command::Sub(1, 128), Ok(())),
            Step::Tick(0, Ok(Ticked::Live)),
            Step::Slots(64, 0),
            Step::Order(25, Command::Sub(1, 255), Ok(())),
            Step::Tick(25, Ok(Ticked::Live)),
            Step::Slots(128, 0),
            Step::Order(100, Command::Go, Ok(())),
            Step::Tick(5100, Ok(Ticked::Live)),
            Step::Slots(255, 0),
            Step::Order(5125, Command::Master(128), Ok(())),
            Step::Tick(5125, Ok(Ticked::Live)),
            Step::Slots(128, 0),
        ],
    )
}

fn universes_of(alloc: Global, show: &Show, base: u16) -> Result<(usize, Option<u16>), RigFault> {
    let desk: Desk<PlainFader> = Desk::open(alloc, show, base)?;
    Ok(numbers(&desk))
}

// A desk of a show of these parts has so many universes at a base, the first of this number, or
// the fault.
fn have_universes(
    rt: &impl Abort,
    alloc: Global,
    parts: &[Part],
    rows: &[(u16, Result<(usize, Option<u16>), RigFault>)],
) -> Result<(), BuildFault> {
    let show = show_of(alloc, parts)?;
    for (base, universes) in rows {
        assert!(rt;
            universes_of(alloc, &show, *base) == *universes,
            "base {base}"
        );
    }
    Ok(())
}

#[test]
fn universe_limit(rt: HostRuntime) -> Result<(), Fail> {
    // Dimmer 1 was patched and is not any more.
    have_universes(
        &rt,
        rt.alloc(),
        &[Part::Patch(1, 1, 255), Part::Patch(1, 0, 255)],
        &[(1, Ok((0, None)))],
    )?;
    have_universes(
        &rt,
        rt.alloc(),
        &[
            Part::Patch(1, 1, 255),
            Part::Patch(1, 0, 255),
            Part::Patch(513, 1, 255),
        ],
        &[
            (63998, Ok((1, Some(63999)))),
            (0, Err(RigFault::Universe)),
            (63999, Err(RigFault::Universe)),
            (64000, Err(RigFault::Universe)),
        ],
    )?;
    Ok(())
}

// A dimmer and a cue; what was refused is asked for once more.
fn build_again(rt: &impl Abort, show: &mut Show) {
    if show.set_patch(1, 1, 255).is_err() {
        assert!(rt; show.set_patch(1, 1, 255).is_ok());
    }
    if show.open_cue(1000).is_err() {
        assert!(rt; show.open_cue(1000).is_ok());
    }
}

fn opens_dark(rt: &impl Abort, alloc: Global, show: &Show) -> Result<(), RigFault> {
    take_on::<PlainFader>(rt, alloc, show, &[Step::Slots(0, 0)])
}

fn open_again(rt: &impl Abort, alloc: Global, show: &Show) {
    if let Err(fault) = opens_dark(rt, alloc, show) {
        assert!(rt; fault == RigFault::Memory);
        assert!(rt; opens_dark(rt, alloc, show).is_ok());
    }
}

// It passes whichever allocation fails.
#[test]
fn each_growth_refused(rt: HostRuntime) {
    let mut show = Show::new(rt.alloc());
    build_again(&rt, &mut show);
    open_again(&rt, rt.alloc(), &show);
}
