ghost use Rattle.std.specs.Prelude.{◌<◌, IsTrue, All};
ghost use Rattle.show_core.specs.Numbers.{is_channel, AreLevels};

use super::shows::{Part, show_of};
use patch_core::{Rig, RigFault, has_numbers, max_into};
use show_core::{BuildFault, Show};
use std::alloc::Global;
use std::process::Abort;
use std::test::Fail;

// Slots that rise by a step and start anew above 250.
fn slots(step: usize) -> [u8; 512]
    requires { step < 256 }
{
    let mut slots = [0; 512];
    for (place, slot) in slots.iter_mut().enumerate() {
        *slot = (place * step % 251) as u8;
    }
    slots
}

fn plain_max(a: &mut [u8; 512], b: &[u8]) {
    for (slot, level) in a.iter_mut().zip(b) {
        if *slot < *level {
            *slot = *level;
        }
    }
}

#[test]
fn max_empty(rt: HostRuntime) {
    let mut a = slots(3);
    max_into(&mut a, &[]);
    assert!(rt; a == slots(3));
}

#[test]
fn max_every_length(rt: HostRuntime) {
    let b = slots(7);
    for length in 0..=512usize {
        let mut most = slots(3);
        let mut plain = slots(3);
        max_into(&mut most, &b[..length]);
        plain_max(&mut plain, &b[..length]);
        assert!(rt; most == plain, "length {length}");
    }
}

// Dimmers of four channels over three universes; dimmer 3 was patched and is not any more.
fn small_show(alloc: Global) -> Result<Show, BuildFault> {
    show_of(
        alloc,
        &[
            Part::Patch(1, 7, 128),
            Part::Patch(2, 1, 255),
            Part::Patch(3, 7, 255),
            Part::Patch(512, 7, 255),
            Part::Patch(513, 2, 255),
            Part::Patch(514, 7, 64),
            Part::Patch(8192, 4096, 255),
            Part::Patch(3, 0, 255),
        ],
    )
}

fn rig_of(alloc: Global, show: Result<Show, BuildFault>) -> Result<Rig, Fail> {
    Ok(Rig::new(alloc, &show?, 1)?)
}

// Whether each level is at most that of a byte at full with a master at full.
fn are_levels(levels: &[u16]) -> bool
    ensures { IsTrue result → AreLevels levels.now }
{
    levels.iter().all(|level| *level <= 65025)
}

fn are_wide_levels(levels: &[u32]) -> bool
    ensures { IsTrue result → AreLevels levels.now }
{
    levels.iter().all(|level| *level <= 65025)
}

fn are_channels(channels: &[u16]) -> bool
    ensures { IsTrue result → All (λ channel. IsTrue (is_channel channel)) channels.now }
{
    channels.iter().all(|channel| (1..=4096).contains(channel))
}

fn widen(levels: &[u16]) -> [u32; 4096] {
    let mut wide = [0; 4096];
    for (level, fine) in wide.iter_mut().zip(levels) {
        *level = u32::from(*fine);
    }
    wide
}

// The frame of an ordinal, over what was there.
fn frame_of(rt: &impl Abort, rig: &Rig, k: u16, levels: &[u16; 4096], grand: u8) -> [u8; 512] {
    let wide = widen(levels);
    assert!(rt; k < 16 && are_wide_levels(&wide));
    let mut frame = [99; 512];
    rig.frame(k, &wide, grand, &mut frame);
    frame
}

// The slots of all dimmers, over what was there.
fn slots_drawn(rt: &impl Abort, rig: &Rig, levels: &[u16; 4096], grand: u8) -> [u8; 8192] {
    assert!(rt; are_levels(levels));
    let mut slots = [99; 8192];
    rig.draw(&mut slots, levels, grand);
    slots
}

// The slots at some places, each of the frame of an ordinal at a grand master, are these: where
// the frame is drawn alone, and where it is drawn together with all others.
fn slots_are(rt: &impl Abort, rig: &Rig, levels: &[u16; 4096], rows: &[(u16, u8, usize, u8)]) {
    for (k, grand, place, slot) in rows {
        let alone = frame_of(rt, rig, *k, levels, *grand);
        let together = slots_drawn(rt, rig, levels, *grand);
        assert!(rt;
            alone.get(*place) == Some(slot),
            "place {place} of {k} at {grand}"
        );
        assert!(rt;
            together.as_chunks().0.get(usize::from(*k)) == Some(&alone),
            "{k} at {grand}"
        );
    }
}

#[test]
fn frame_half(rt: HostRuntime) -> Result<(), Fail> {
    let rig = rig_of(rt.alloc(), small_show(rt.alloc()))?;
    let mut levels = [0; 4096];
    levels[6] = 32640;
    levels[4095] = 65025;
    slots_are(
        &rt,
        &rig,
        &levels,
        &[
            (0, 255, 0, 64),
            (0, 255, 1, 0),
            (0, 255, 2, 0),
            (0, 255, 511, 128),
            (0, 128, 511, 64),
            (0, 0, 511, 0),
            (1, 255, 0, 0),
            (1, 255, 1, 32),
            (2, 255, 1, 0),
            (15, 255, 511, 255),
            (15, 128, 511, 128),
            (15, 128, 510, 0),
        ],
    );
    Ok(())
}

// Some channels are at a level.
fn put(levels: &mut [u16; 4096], channels: &[u16], level: u16) {
    for channel in channels {
        if (1..=4096).contains(channel) {
            levels[usize::from(*channel) - 1] = level;
        }
    }
}

// Puts the channels of a row to its level, and tells whether the slots that are drawn anew for them
// alone are those that are drawn as a whole.
fn redraws(
    rt: &impl Abort,
    rig: &Rig,
    slots: &mut [u8; 8192],
    levels: &mut [u16; 4096],
    row: (&[u16], u16),
) -> bool {
    let (channels, level) = row;
    put(levels, channels, level);
    assert!(rt; are_levels(levels) && are_channels(channels));
    rig.redraw(slots, channels, levels, 200);
    *slots == slots_drawn(rt, rig, levels, 200)
}

// Channel 7 has dimmers in two universes, channels 3 and 5 have none, and 4096 has the last one.
#[test]
fn redraw_of_some_channels(rt: HostRuntime) -> Result<(), Fail> {
    let rig = rig_of(rt.alloc(), small_show(rt.alloc()))?;
    let mut levels = [0; 4096];
    let mut slots = [0; 8192];
    let rows: &[(&[u16], u16)] = &[
        (&[7, 3, 7], 65025),
        (&[4096, 1, 2], 255),
        (&[7, 4096, 5], 32640),
        (&[], 0),
    ];
    for row in rows {
        assert!(rt;
            redraws(&rt, &rig, &mut slots, &mut levels, *row),
            "to {}",
            row.1
        );
    }
    Ok(())
}

// Whether a rig has this base, or this fault, and the universes have no numbers just where it has
// a fault.
fn has_base(alloc: Global, show: &Show, base: u16, fault: Option<RigFault>) -> bool {
    match Rig::new(alloc, show, base) {
        Ok(rig) => fault.is_none() && rig.base() == base && has_numbers(show, base),
        Err(found) => fault == Some(found) && !has_numbers(show, base),
    }
}

// A rig of a show of these parts has these bases, or these faults.
fn have_bases(
    rt: &impl Abort,
    alloc: Global,
    parts: &[Part],
    rows: &[(u16, Option<RigFault>)],
) -> Result<(), BuildFault> {
    let show = show_of(alloc, parts)?;
    for (base, fault) in rows {
        assert!(rt; has_base(alloc, &show, *base, *fault), "base {base}");
    }
    Ok(())
}

#[test]
fn universe_limit(rt: HostRuntime) -> Result<(), Fail> {
    // Dimmer 1 was patched and is not any more.
    have_bases(
        &rt,
        rt.alloc(),
        &[Part::Patch(1, 1, 255), Part::Patch(1, 0, 255)],
        &[
            (0, Some(RigFault::Universe)),
            (1, None),
            (63999, None),
            (64000, Some(RigFault::Universe)),
            (65535, Some(RigFault::Universe)),
        ],
    )?;
    have_bases(
        &rt,
        rt.alloc(),
        &[
            Part::Patch(1, 1, 255),
            Part::Patch(1, 0, 255),
            Part::Patch(513, 1, 255),
        ],
        &[(63998, None), (63999, Some(RigFault::Universe))],
    )?;
    Ok(())
}

// What was refused is asked for once more.
fn patch_again(rt: &impl Abort, show: &mut Show) {
    if show.set_patch(1, 1, 255).is_err() {
        assert!(rt; show.set_patch(1, 1, 255).is_ok());
    }
}

fn open_again(rt: &impl Abort, alloc: Global, show: &Show) {
    if let Err(fault) = Rig::new(alloc, show, 1) {
        assert!(rt; fault == RigFault::Memory);
        assert!(rt; Rig::new(alloc, show, 1).is_ok());
    }
}

// It passes whichever allocation fails.
#[test]
fn each_growth_refused(rt: HostRuntime) {
    let mut show = Show::new(rt.alloc());
    patch_again(&rt, &mut show);
    open_again(&rt, rt.alloc(), &show);
}
