ghost use Rattle.std.specs.Prelude.{◌<◌};

use crate::shows::{CUES, FADE, fading_show};
use crate::timed::Timed;
use anyhow::Result;
use desk_core::{Command, Desk, Refused};
use fade_core::StepFader;
use show_core::Show;
use std::time::{Clock, Instant};

// Milliseconds between two ticks.
const TICK: u32 = 25;

const TICKS_OF_A_FADE: u32 = FADE / TICK;

// What is timed of a desk.
#[derive(Clone, Copy)]
enum Ticks {
    Fading,
    Idle,
}

/// Ticks of a desk of eight universes with one channel in `step` moving; the things are ticks.
pub fn run_fading<R: AllocGlobal + Clock>(rt: &R, step: u16, ticks: u32) -> Result<Timed>
    requires { 0 < step }
{
    let show = fading_show(rt.alloc(), step)?;
    run(rt, &show, Ticks::Fading, ticks)
}

/// Ticks of a desk of eight universes when its fade is over; the things are ticks.
pub fn run_idle<R: AllocGlobal + Clock>(rt: &R, ticks: u32) -> Result<Timed> {
    let show = fading_show(rt.alloc(), 1)?;
    run(rt, &show, Ticks::Idle, ticks)
}

fn run<R: AllocGlobal + Clock>(rt: &R, show: &Show, kind: Ticks, ticks: u32) -> Result<Timed> {
    let mut desk = Desk::open(rt.alloc(), show, 1)?;
    time(rt, &mut desk, kind, ticks)
}

fn time<R: Clock>(rt: &R, desk: &mut Desk<StepFader>, kind: Ticks, ticks: u32) -> Result<Timed> {
    let began = Instant::now(rt)?;
    match kind {
        Ticks::Fading => fade(desk, ticks)?,
        Ticks::Idle => idle(desk, ticks)?,
    }
    Ok(Timed::since(began, rt, u64::from(ticks), sum_of_slots(desk))?)
}

// Ticks with a new fade once a minute.
fn fade(desk: &mut Desk<StepFader>, ticks: u32) -> Result<(), Refused> {
    for tick in 0..ticks {
        let moment = u64::from(TICK) * u64::from(tick);
        if tick % TICKS_OF_A_FADE == 0 {
            let cue = CUES[(tick / TICKS_OF_A_FADE % 2) as usize];
            desk.command(moment, Command::Goto(cue))?;
        }
        desk.tick(moment)?;
    }
    Ok(())
}

// Ticks from the end of the first fade on.
fn idle(desk: &mut Desk<StepFader>, ticks: u32) -> Result<(), Refused> {
    desk.command(0, Command::Go)?;
    let mut moment = u64::from(FADE);
    for _ in 0..ticks {
        desk.tick(moment)?;
        moment = moment.wrapping_add(u64::from(TICK));
    }
    Ok(())
}

fn sum_of_slots(desk: &Desk<StepFader>) -> u64 {
    let mut sum = 0u64;
    for universe in desk.universes().as_slice() {
        for slot in desk.slots(*universe) {
            sum = sum.wrapping_add(u64::from(*slot));
        }
    }
    sum
}
