//! patch_core: frame_half, max_empty, max_every_length, universe_limit on `Rig::new`, and
//! sixteen_universes's bases.

use super::rows::show_of;
use patch_core::{Rig, RigFault, max_into};
use show_core::Show;
use std::alloc::Global;
use std::test::Fail;

#[test]
fn frame_half(rt: HostRuntime) -> Result<(), Fail> {
    let show = show_of(rt.alloc(), b"PATCH 1 1<1@H80 4096<8192@FL")?;
    let rig = Rig::new(rt.alloc(), &show, 1)?;
    let levels = [32640u32; 4096];
    let mut out = [99; 512];
    rig.frame(0, &levels, 255, &mut out);
    assert!(rt; out[0] == 64);
    assert!(rt; out[1..] == [0; 511]);
    rig.frame(15, &levels, 255, &mut out);
    assert!(rt; out[511] == 128);
    assert!(rt; out[..511] == [0; 511]);
    rig.frame(15, &levels, 0, &mut out);
    assert!(rt; out == [0; 512]);
    Ok(())
}

// Slots that rise by a step and start anew above 250.
fn rising(step: u8) -> [u8; 512] {
    let mut slots = [0; 512];
    let mut level = 0u8;
    for slot in slots.iter_mut() {
        *slot = level;
        level = level.wrapping_add(step);
    }
    slots
}

fn plain_max(a: &mut [u8; 512], b: &[u8]) {
    for (slot, level) in a.iter_mut().zip(b) {
        *slot = (*slot).max(*level);
    }
}

#[test]
fn max_empty(rt: HostRuntime) {
    let mut a = rising(3);
    max_into(&mut a, &[]);
    assert!(rt; a == rising(3));
}

#[test]
fn max_every_length(rt: HostRuntime) {
    let b = rising(7);
    for length in 0..=512usize {
        let mut by_lanes = rising(3);
        let mut plain = rising(3);
        max_into(&mut by_lanes, &b[..length]);
        plain_max(&mut plain, &b[..length]);
        assert!(rt; by_lanes == plain, "{length}");
    }
}

fn refuses(alloc: Global, show: &Show, base: u16) -> bool {
    matches!(Rig::new(alloc, show, base), Err(RigFault::Universe))
}

fn has_base(alloc: Global, show: &Show, base: u16) -> bool {
    Rig::new(alloc, show, base).is_ok()
}

#[test]
fn universe_limit(rt: HostRuntime) -> Result<(), Fail> {
    let alloc = rt.alloc();
    let show = show_of(alloc, b"PATCH 1 1<513@FL")?;
    assert!(rt; has_base(alloc, &show, 63998));
    assert!(rt; refuses(alloc, &show, 63999));
    assert!(rt; refuses(alloc, &show, 0));
    let show = show_of(alloc, b"PATCH 1 1<1@FL 0<1@FL")?;
    assert!(rt; has_base(alloc, &show, 63999));
    assert!(rt; refuses(alloc, &show, 64000));
    assert!(rt; refuses(alloc, &show, 0));
    let show = show_of(alloc, b"PATCH 1 1<7681@FL")?;
    assert!(rt; has_base(alloc, &show, 63984));
    assert!(rt; refuses(alloc, &show, 63985));
    Ok(())
}
