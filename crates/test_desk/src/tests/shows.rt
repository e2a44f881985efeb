use show_core::{BuildFault, CueTime, Rate, Show};
use std::alloc::Global;

// A part of a show.
#[derive(Clone, Copy)]
pub enum Part {
    Cue(u32),
    // The number of a cue that is there, and its channel at full, or the time of its rises, of its
    // falls, or to the next.
    Full(u32, u16),
    Up(u32, u16),
    Down(u32, u16),
    Follow(u32, u16),
    // A submaster or a group: its number, a channel and its byte.
    Sub(u16, u16, u8),
    Group(u16, u16, u8),
    // A dimmer, its channel and its byte.
    Patch(u16, u16, u8),
}

fn set_full(show: &mut Show, n: u32, channel: u16) -> Result<(), BuildFault> {
    if show.cue(n).is_none() {
        return Err(BuildFault::Limit);
    }
    show.cue_level(n, channel, 255)
}

fn add_sub(show: &mut Show, n: u16, channel: u16, byte: u8) -> Result<(), BuildFault> {
    show.open_sub(n)?;
    if show.sub(n).is_none() {
        return Err(BuildFault::Limit);
    }
    show.sub_level(n, channel, byte)
}

fn add_group(show: &mut Show, n: u16, channel: u16, byte: u8) -> Result<(), BuildFault> {
    show.open_group(n)?;
    if show.group(n).is_none() {
        return Err(BuildFault::Limit);
    }
    show.group_level(n, channel, byte)
}

fn set_up(show: &mut Show, n: u32, time: u16) -> Result<(), BuildFault> {
    if show.cue(n).is_none() {
        return Err(BuildFault::Limit);
    }
    let rate = Rate {
        time: u32::from(time),
        delay: 0,
    };
    show.set_time(n, CueTime::Up(rate));
    Ok(())
}

fn set_down(show: &mut Show, n: u32, time: u16) -> Result<(), BuildFault> {
    if show.cue(n).is_none() {
        return Err(BuildFault::Limit);
    }
    let rate = Rate {
        time: u32::from(time),
        delay: 0,
    };
    show.set_time(n, CueTime::Down(rate));
    Ok(())
}

fn set_follow(show: &mut Show, n: u32, time: u16) -> Result<(), BuildFault> {
    if show.cue(n).is_none() {
        return Err(BuildFault::Limit);
    }
    show.set_time(n, CueTime::Follow(u32::from(time)));
    Ok(())
}

// Adds a part, or answers a fault where it cannot be there.
pub fn add(show: &mut Show, part: &Part) -> Result<(), BuildFault> {
    match part {
        Part::Cue(n) => show.open_cue(*n),
        Part::Full(n, channel) => set_full(show, *n, *channel),
        Part::Up(n, time) => set_up(show, *n, *time),
        Part::Down(n, time) => set_down(show, *n, *time),
        Part::Follow(n, time) => set_follow(show, *n, *time),
        Part::Sub(n, channel, byte) => add_sub(show, *n, *channel, *byte),
        Part::Group(n, channel, byte) => add_group(show, *n, *channel, *byte),
        Part::Patch(dimmer, channel, byte) => show.set_patch(*dimmer, *channel, *byte),
    }
}

// Adds the parts, one after the other. One that cannot be there is a fault.
fn add_parts(show: &mut Show, parts: &[Part]) -> Result<(), BuildFault> {
    for part in parts {
        add(show, part)?;
    }
    Ok(())
}

fn add_all(show: &mut Show, parts: &[Part], more: &[Part]) -> Result<(), BuildFault> {
    add_parts(show, parts)?;
    add_parts(show, more)
}

// A show of these parts, and then of more.
pub fn show_with(alloc: Global, parts: &[Part], more: &[Part]) -> Result<Show, BuildFault> {
    let mut show = Show::new(alloc);
    add_all(&mut show, parts, more)?;
    Ok(show)
}

pub fn show_of(alloc: Global, parts: &[Part]) -> Result<Show, BuildFault> {
    show_with(alloc, parts, &[])
}

// Cue 1 brings channel 1 to full over five seconds; cue 2 brings channel 2 to full over two, and
// channel 1 out over four.
pub const TWO_CUES: &[Part] = &[
    Part::Cue(1000),
    Part::Full(1000, 1),
    Part::Cue(2000),
    Part::Full(2000, 2),
    Part::Up(1000, 5000),
    Part::Up(2000, 2000),
    Part::Down(2000, 4000),
];
