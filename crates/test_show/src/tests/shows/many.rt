use show_core::{BuildFault, Show};
use std::process::Abort;
use std::test::Fail;

// A list of so many is not put one by one.
const LONG: u16 = 300;

pub fn list_in_cue(
    rt: &impl Abort,
    show: &mut Show,
    n: u32,
    pairs: &[(u16, u8)],
) -> Result<(), BuildFault> {
    assert!(rt; show.cue(n).is_some());
    show.cue_levels(n, pairs)
}

pub fn list_in_sub(
    rt: &impl Abort,
    show: &mut Show,
    n: u16,
    pairs: &[(u16, u8)],
) -> Result<(), BuildFault> {
    assert!(rt; show.sub(n).is_some());
    show.sub_levels(n, pairs)
}

pub fn list_in_group(
    rt: &impl Abort,
    show: &mut Show,
    n: u16,
    pairs: &[(u16, u8)],
) -> Result<(), BuildFault> {
    assert!(rt; show.group(n).is_some());
    show.group_levels(n, pairs)
}

// The channels from 300 down to 1 at this byte.
pub fn falling_levels(byte: u8) -> [(u16, u8); 300] {
    let mut pairs = [(0, byte); 300];
    for at in 0..LONG {
        pairs[usize::from(at)].0 = LONG - at;
    }
    pairs
}

// The channels from 1 to 300 at this byte.
pub fn rising_levels(byte: u8) -> [(u16, u8); 300] {
    let mut pairs = [(0, byte); 300];
    for at in 0..LONG {
        pairs[usize::from(at)].0 = at + 1;
    }
    pairs
}

// The dimmers from 300 down to 1: those with an even number at this channel, the others at channel
// 7, all at full.
pub fn falling_dimmers(channel: u16) -> [(u16, (u16, u8)); 300] {
    let mut entries = [(0, (7, 255)); 300];
    for at in 0..LONG {
        entries[usize::from(at)].0 = LONG - at;
        if at % 2 == 0 {
            entries[usize::from(at)].1 = (channel, 255);
        }
    }
    entries
}

// Whether a show has so many dimmers, and these of them.
fn has_patched(
    show: &Show,
    count: u32,
    first: Option<(u16, u8)>,
    second: Option<(u16, u8)>,
) -> bool {
    show.counts().dimmers == count && show.patched(1) == first && show.patched(2) == second
}

#[test]
fn lists_of_patches(rt: HostRuntime) -> Result<(), Fail> {
    let mut show = Show::new(rt.alloc());
    for (entries, count, first, second) in &[
        (
            falling_dimmers(9).as_slice(),
            300,
            Some((7, 255)),
            Some((9, 255)),
        ),
        (falling_dimmers(0).as_slice(), 150, Some((7, 255)), None),
        (
            [(1, (0, 1)), (2, (4, 1)), (2, (5, 2)), (3, (0, 1))].as_slice(),
            149,
            None,
            Some((5, 2)),
        ),
        ([(2, (0, 255)), (2, (0, 255))].as_slice(), 148, None, None),
    ] {
        show.set_patches(entries)?;
        assert!(rt;
            has_patched(&show, *count, *first, *second),
            "{count} dimmers"
        );
    }
    Ok(())
}
