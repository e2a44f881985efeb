use super::shows::{Part, show_of};
use master_core::{Masters, NoMaster};
use show_core::Show;
use std::alloc::Global;
use std::process::Abort;
use std::test::Fail;

// A call with its answer, or what is seen after the calls so far.
enum Step {
    Sub(u16, u8, Result<(), NoMaster>),
    Group(u16, u8, Result<(), NoMaster>),
    Grand(u8),
    // A channel, the level of playback, and the level that the masters make of it.
    Level(u16, u32, u32),
    // The floors of channels 1, 2, 7 and 4096.
    Floors([u16; 4]),
}

// Writes the floors over those of an earlier step.
fn floors_of(masters: &Masters, show: &Show, floors: &mut [u16; 4096]) -> [u16; 4] {
    masters.write_floors(show, floors);
    [floors[0], floors[1], floors[6], floors[4095]]
}

fn holds(masters: &mut Masters, show: &Show, floors: &mut [u16; 4096], step: &Step) -> bool {
    match step {
        Step::Sub(n, byte, answer) => masters.set_sub(show, *n, *byte) == *answer,
        Step::Group(n, byte, answer) => masters.set_group(show, *n, *byte) == *answer,
        Step::Grand(byte) => {
            masters.set_grand(*byte);
            masters.grand() == *byte
        }
        Step::Level(channel, playback, level) => {
            masters.merged(show, *channel, *playback) == *level
        }
        Step::Floors(some) => floors_of(masters, show, floors) == *some,
    }
}

// Masters as they begin take the steps.
fn take_on(rt: &impl Abort, show: &Show, mut masters: Masters, steps: &[Step]) {
    assert!(rt; masters.grand() == 255);
    let mut floors = [9; 4096];
    for (place, step) in steps.iter().enumerate() {
        assert!(rt;
            holds(&mut masters, show, &mut floors, step),
            "step {place}"
        );
    }
}

// The masters of a show of these parts take the steps, however they began.
fn take_steps(rt: &impl Abort, alloc: Global, parts: &[Part], steps: &[Step]) -> Result<(), Fail> {
    let show = show_of(alloc, parts)?;
    take_on(rt, &show, Masters::default(), steps);
    take_on(rt, &show, Masters::new(), steps);
    Ok(())
}

// Submaster 1 has channel 1 at half; there is no other, and no group.
#[test]
fn no_such_master(rt: HostRuntime) -> Result<(), Fail> {
    take_steps(
        &rt,
        rt.alloc(),
        &[],
        &[Step::Sub(1, 10, Err(NoMaster::NoSub))],
    )?;
    take_steps(
        &rt,
        rt.alloc(),
        &[Part::Sub(1, 1, 128)],
        &[
            Step::Level(1, 0, 0),
            Step::Sub(1, 255, Ok(())),
            Step::Sub(0, 10, Err(NoMaster::NoSub)),
            Step::Sub(2, 10, Err(NoMaster::NoSub)),
            Step::Sub(101, 10, Err(NoMaster::NoSub)),
            Step::Group(0, 10, Err(NoMaster::NoGroup)),
            Step::Group(1, 10, Err(NoMaster::NoGroup)),
            Step::Group(501, 10, Err(NoMaster::NoGroup)),
            Step::Level(1, 0, 32640),
            Step::Level(1, 32640, 32640),
        ],
    )
}

#[test]
fn group_highest(rt: HostRuntime) -> Result<(), Fail> {
    take_steps(
        &rt,
        rt.alloc(),
        &[Part::Group(3, 5, 255), Part::Group(500, 5, 255)],
        &[
            Step::Level(5, 0, 0),
            Step::Group(3, 128, Ok(())),
            Step::Level(5, 0, 32640),
            Step::Level(5, 40000, 40000),
            Step::Level(4, 0, 0),
            Step::Group(500, 255, Ok(())),
            Step::Level(5, 40000, 65025),
        ],
    )
}

// Submaster 1 and group 500 share channel 1; floors of an earlier setting are written over.
#[test]
fn floors(rt: HostRuntime) -> Result<(), Fail> {
    take_steps(
        &rt,
        rt.alloc(),
        &[
            Part::Sub(1, 1, 128),
            Part::Sub(1, 4096, 255),
            Part::Group(500, 1, 255),
            Part::Group(500, 7, 2),
        ],
        &[
            Step::Sub(1, 0, Ok(())),
            Step::Group(500, 0, Ok(())),
            Step::Floors([0, 0, 0, 0]),
            Step::Grand(128),
            Step::Level(1, 0, 0),
            Step::Sub(1, 255, Ok(())),
            Step::Group(500, 100, Ok(())),
            Step::Floors([32640, 0, 200, 65025]),
            Step::Level(1, 0, 32640),
            Step::Sub(1, 100, Ok(())),
            Step::Group(500, 255, Ok(())),
            Step::Floors([65025, 0, 510, 25500]),
            Step::Level(1, 0, 65025),
            Step::Sub(1, 1, Ok(())),
            Step::Group(500, 0, Ok(())),
            Step::Floors([128, 0, 0, 255]),
            Step::Level(1, 0, 128),
        ],
    )
}
