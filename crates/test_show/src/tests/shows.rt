mod many;

use many::{
    falling_dimmers, falling_levels, list_in_cue, list_in_group, list_in_sub, rising_levels,
};
use show_core::{BuildFault, Counts, Show};
use std::alloc::{AllocError, Global};
use std::process::Abort;
use std::test::Fail;

fn light_cue(
    rt: &impl Abort,
    show: &mut Show,
    n: u32,
    channel: u16,
    byte: u8,
) -> Result<(), BuildFault> {
    assert!(rt; show.cue(n).is_some());
    show.cue_level(n, channel, byte)
}

fn light_sub(
    rt: &impl Abort,
    show: &mut Show,
    n: u16,
    channel: u16,
    byte: u8,
) -> Result<(), BuildFault> {
    assert!(rt; show.sub(n).is_some());
    show.sub_level(n, channel, byte)
}

fn light_group(
    rt: &impl Abort,
    show: &mut Show,
    n: u16,
    channel: u16,
    byte: u8,
) -> Result<(), BuildFault> {
    assert!(rt; show.group(n).is_some());
    show.group_level(n, channel, byte)
}

// The slot at a place of a universe where cue 1 is up.
fn slot(show: &Show, ordinal: u16, place: usize) -> Option<u8> {
    if ordinal >= 16 {
        return None;
    }
    show.cue(1000)?;
    show.look_slots(1000, ordinal).get(place).copied()
}

fn open_cues(show: &mut Show, numbers: &[u32]) -> Result<(), BuildFault> {
    for n in numbers {
        show.open_cue(*n)?;
    }
    Ok(())
}

// Three cues, the highest first, and which are next to a number.
fn order_cues(rt: &impl Abort, show: &mut Show) -> Result<(), BuildFault> {
    open_cues(show, &[2000, 1500, 1000])?;
    for (n, next, before) in &[
        (0, Some(1000), None),
        (1000, Some(1500), None),
        (1001, Some(1500), Some(1000)),
        (1500, Some(2000), Some(1000)),
        (2000, None, Some(1500)),
    ] {
        assert!(rt;
            (show.next(*n), show.before(*n)) == (*next, *before),
            "around {n}"
        );
    }
    Ok(())
}

#[test]
fn cues_in_order(rt: HostRuntime) -> Result<(), Fail> {
    let mut show = Show::new(rt.alloc());
    order_cues(&rt, &mut show)?;
    Ok(())
}

// Two submasters, groups and dimmers each, the higher one first, and a level in one of each.
fn two_of_each(rt: &impl Abort, show: &mut Show) -> Result<(), BuildFault> {
    for n in &[100, 2] {
        show.open_sub(*n)?;
        show.open_group(*n + 400)?;
        show.set_patch(8192 - *n, 4096, 7)?;
    }
    light_sub(rt, show, 2, 1, 128)?;
    light_group(rt, show, 500, 5, 255)
}

// Whether these are the submasters of a show, each with its level of channel 1.
fn has_subs(show: &Show, wanted: [(u16, u8); 2]) -> bool {
    show.subs()
        .iter()
        .map(|sub| (sub.0, sub.1.level(1)))
        .eq(wanted)
}

// The same of its groups and of channel 5.
fn has_groups(show: &Show, wanted: [(u16, u8); 2]) -> bool {
    show.groups()
        .iter()
        .map(|group| (group.0, group.1.level(5)))
        .eq(wanted)
}

fn has_two_of_each(show: &Show) -> bool {
    has_subs(show, [(2, 128), (100, 0)])
        && has_groups(show, [(402, 0), (500, 255)])
        && show.patch() == [(8092, (4096, 7)), (8190, (4096, 7))].as_slice()
}

#[test]
fn records_of_a_show(rt: HostRuntime) -> Result<(), Fail> {
    let mut show = Show::new(rt.alloc());
    two_of_each(&rt, &mut show)?;
    assert!(rt; has_two_of_each(&show));
    Ok(())
}

// Cue 1 with three channels, and a patch over three universes.
fn look_show(rt: &impl Abort, show: &mut Show) -> Result<(), BuildFault> {
    show.open_cue(1000)?;
    for (channel, byte) in &[(1, 128), (2, 255), (4096, 255)] {
        light_cue(rt, show, 1000, *channel, *byte)?;
    }
    for (dimmer, channel, byte) in &[
        (1, 1, 128),
        (2, 3, 255),
        (512, 1, 255),
        (513, 2, 255),
        (8192, 4096, 255),
        (9, 1, 255),
        (9, 0, 255),
    ] {
        show.set_patch(*dimmer, *channel, *byte)?;
    }
    Ok(())
}

fn look_at_each(rt: &impl Abort, show: &Show) {
    assert!(rt; show.universes().as_slice() == [0, 1, 15].as_slice());
    for (ordinal, place, byte) in &[
        (0, 0, 64),
        (0, 1, 0),
        (0, 8, 0),
        (0, 511, 128),
        (1, 0, 255),
        (1, 511, 0),
        (15, 511, 255),
    ] {
        assert!(rt;
            slot(show, *ordinal, *place) == Some(*byte),
            "place {place} of {ordinal}"
        );
    }
}

#[test]
fn looks_of_each_universe(rt: HostRuntime) -> Result<(), Fail> {
    let mut show = Show::new(rt.alloc());
    look_show(&rt, &mut show)?;
    look_at_each(&rt, &show);
    Ok(())
}

#[derive(Clone, Copy)]
enum Growth {
    Cue,
    CueLevel,
    Sub,
    SubLevel,
    Group,
    GroupLevel,
    Patch,
    CueLevels,
    SubLevels,
    GroupLevels,
    Patches,
}

fn grow(rt: &impl Abort, show: &mut Show, growth: Growth) -> Result<(), BuildFault> {
    match growth {
        Growth::Cue => show.open_cue(1000),
        Growth::CueLevel => light_cue(rt, show, 1000, 1, 255),
        Growth::Sub => show.open_sub(1),
        Growth::SubLevel => light_sub(rt, show, 1, 1, 255),
        Growth::Group => show.open_group(1),
        Growth::GroupLevel => light_group(rt, show, 1, 1, 255),
        Growth::Patch => show.set_patch(1, 1, 255),
        Growth::CueLevels => list_in_cue(rt, show, 1000, &[(7, 255), (6, 255), (5, 255), (4, 255)]),
        Growth::SubLevels => list_in_sub(rt, show, 1, &falling_levels(255)),
        Growth::GroupLevels => list_in_group(rt, show, 1, &rising_levels(255)),
        Growth::Patches => show.set_patches(&falling_dimmers(9)),
    }
}

fn cue_size(show: &Show) -> Option<usize> {
    let cue = show.cue(1000)?;
    Some(cue.pairs().len())
}

fn size(pairs: Option<&[(u16, u8)]>) -> Option<usize> {
    Some(pairs?.len())
}

// How much of each kind there is, the levels of the first records included.
fn sizes(show: &Show) -> (Counts, Option<usize>, Option<usize>, Option<usize>) {
    let sub = size(show.sub(1));
    let group = size(show.group(1));
    (show.counts(), cue_size(show), sub, group)
}

// Whether it grows at once, or is refused, leaves all as it was, and then grows.
fn grows(rt: &impl Abort, show: &mut Show, growth: Growth) -> bool {
    let before = sizes(show);
    let answer = grow(rt, show, growth);
    answer == Ok(())
        || answer == Err(BuildFault::Memory)
            && sizes(show) == before
            && grow(rt, show, growth) == Ok(())
}

// Where the copy is refused, there is memory for the next.
fn copy_of(rt: &impl Abort, alloc: Global, show: &Show) -> Show {
    match show.clone_in(alloc) {
        Ok(copy) => copy,
        Err(AllocError) => show.clone_in(alloc).expect(rt, "memory"),
    }
}

// Whether the copy of a show has as much of each kind.
fn copies(rt: &impl Abort, alloc: Global, show: &Show) -> bool {
    let copy = copy_of(rt, alloc, show);
    sizes(&copy) == sizes(show)
}

// Each allocation once.
fn grow_each(rt: &impl Abort, show: &mut Show) {
    for growth in &[
        Growth::Cue,
        Growth::CueLevel,
        Growth::Sub,
        Growth::SubLevel,
        Growth::Group,
        Growth::GroupLevel,
        Growth::Patch,
        Growth::CueLevels,
        Growth::SubLevels,
        Growth::GroupLevels,
        Growth::Patches,
    ] {
        assert!(rt; grows(rt, show, *growth));
    }
}

// Whether a show has what all allocations leave.
fn has_grown(show: &Show) -> bool {
    let one = Counts {
        cues: 1,
        subs: 1,
        groups: 1,
        dimmers: 300,
    };
    sizes(show) == (one, Some(5), Some(300), Some(300))
}

// It passes whichever allocation fails.
#[test]
fn each_growth_refused(rt: HostRuntime) {
    let mut show = Show::new(rt.alloc());
    grow_each(&rt, &mut show);
    assert!(rt; has_grown(&show) && copies(&rt, rt.alloc(), &show));
}
