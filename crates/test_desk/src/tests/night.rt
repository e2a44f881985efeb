use super::shows::{Part, add, show_of};
use desk_core::{Command, Desk, ENDING_TICKS, Instruction, Refused};
use fade_core::{Fader, PlainFader, StepFader};
use show_core::{BuildFault, Show};
use std::alloc::Global;
use std::io::Print;
use std::process::Abort;
use std::test::Fail;

// Dimmers of two universes, each of its own channel.
const DIMMERS: u16 = 1024;

// More channels than are drawn one by one.
const MANY: u16 = 800;

const TICK: u64 = 25;

// Ticks behind each instruction: a fade takes two thirds of them.
const TICKS: u64 = 60;

// Of cue 1 and cue 3 one channel moves, and of cue 2, which cue 3 follows, more than are drawn one
// by one.
const PARTS: &[Part] = &[
    Part::Cue(1000),
    Part::Up(1000, 1000),
    Part::Full(1000, 1),
    Part::Cue(2000),
    Part::Up(2000, 1000),
    Part::Follow(2000, 500),
    Part::Cue(3000),
    Part::Up(3000, 1000),
    Part::Full(3000, 2),
    Part::Sub(1, 3, 255),
    Part::Group(1, 4, 255),
];

fn night_show(alloc: Global) -> Result<Show, BuildFault> {
    let mut show = show_of(alloc, PARTS)?;
    for channel in 1..=MANY {
        add(&mut show, &Part::Full(2000, channel))?;
    }
    for dimmer in 1..=DIMMERS {
        add(&mut show, &Part::Patch(dimmer, dimmer, 255))?;
    }
    Ok(show)
}

// Every instruction, and refused ones.
const INSTRUCTIONS: &[(Instruction, Result<(), Refused>)] = &[
    (Instruction::Plain(Command::Back), Err(Refused::AtStart)),
    (Instruction::Plain(Command::Go), Ok(())),
    (Instruction::Plain(Command::Sub(1, 128)), Ok(())),
    (Instruction::Plain(Command::Go), Ok(())),
    (Instruction::Plain(Command::Go), Err(Refused::AtEnd)),
    (Instruction::Plain(Command::Master(100)), Ok(())),
    (Instruction::Plain(Command::Back), Ok(())),
    (Instruction::Plain(Command::Group(1, 255)), Ok(())),
    (Instruction::Plain(Command::Goto(1000)), Ok(())),
    (Instruction::Plain(Command::Goto(1500)), Err(Refused::NoCue)),
    (
        Instruction::GotoIn {
            cue: 2000,
            time: 700,
        },
        Ok(()),
    ),
    (Instruction::Plain(Command::Sub(2, 1)), Err(Refused::NoSub)),
    (Instruction::Plain(Command::Sub(1, 0)), Ok(())),
    (
        Instruction::Plain(Command::Group(2, 1)),
        Err(Refused::NoGroup),
    ),
    (Instruction::Plain(Command::End), Ok(())),
    (Instruction::Plain(Command::Go), Err(Refused::Ended)),
];

// How many ticks were made, and how many of them changed a slot.
#[derive(Clone, Copy)]
struct Seen {
    ticks: u64,
    changes: u64,
    sum: u64,
}

fn sum_of_slots<F: Fader>(desk: &Desk<F>) -> u64 {
    let mut sum = 0u64;
    for universe in desk.universes().as_slice() {
        for slot in desk.slots(*universe) {
            sum = sum.wrapping_add(u64::from(*slot));
        }
    }
    sum
}

impl Seen {
    fn see(&mut self, sum: u64) {
        self.ticks = self.ticks.wrapping_add(1);
        if sum != self.sum {
            self.changes = self.changes.wrapping_add(1);
        }
        self.sum = sum;
    }
}

// Whether each instruction is answered so, with ticks behind each; and what was seen.
fn play<F: Fader>(desk: &mut Desk<F>) -> (bool, Seen) {
    let mut seen = Seen {
        ticks: 0,
        changes: 0,
        sum: 0,
    };
    let mut moment = 0u64;
    for (instruction, answer) in INSTRUCTIONS {
        if desk.order(moment, *instruction) != *answer {
            return (false, seen);
        }
        for _ in 0..TICKS {
            if desk.tick(moment).is_ok() {
                seen.see(sum_of_slots(desk));
            }
            moment = moment.wrapping_add(TICK);
        }
    }
    (true, seen)
}

// A desk that is open takes no memory, and gives none back: `tests/test_capacities.py` counts the
// calls of the allocator between the two lines that are printed.
fn play_between_lines<F: Fader, R: Print + Abort>(rt: &R, alloc: Global) -> Result<(), Fail> {
    let show = night_show(alloc)?;
    let mut desk: Desk<F> = Desk::open(alloc, &show, 1)?;
    println!(rt; "open")?;
    let (is_answered, seen) = play(&mut desk);
    println!(rt; "over")?;
    assert!(rt; is_answered);
    // Fourteen instructions come before `end`; behind it there are ticks for the end of the streams.
    assert!(rt; seen.ticks == 14 * TICKS + u64::from(ENDING_TICKS));
    // Some ticks are of a fade, and others of none.
    assert!(rt; seen.changes > 200 && seen.changes < 7 * TICKS);
    Ok(())
}

#[test]
fn night_of_plain(rt: HostRuntime) -> Result<(), Fail> {
    play_between_lines::<PlainFader, _>(&rt, rt.alloc())
}

#[test]
fn night_of_step(rt: HostRuntime) -> Result<(), Fail> {
    play_between_lines::<StepFader, _>(&rt, rt.alloc())
}
