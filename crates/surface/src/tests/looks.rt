//! show_core's `look_slots(n, k)`, by the number of a cue.

use super::rows::{ONE_LAMP, are_slots, show_of};
use show_core::Show;
use std::test::Fail;

// The cue alone, at full.
#[test]
fn look_of_one_lamp(rt: HostRuntime) -> Result<(), Fail> {
    let show = show_of(rt.alloc(), ONE_LAMP)?;
    if show.cue(1000).is_some() {
        let slots: [u8; 512] = show.look_slots(1000, 0);
        assert!(rt; are_slots(&slots, 64, 0));
        assert!(rt; show.look_slots(1000, 15) == [0; 512]);
    }
    Ok(())
}

// Straight on, without a look at whether the cue is there.
#[test]
#[tactic(auto, using(crate::proofs::There::there))]
fn look_of_a_built_cue(rt: HostRuntime) -> Result<(), Fail> {
    let mut show = Show::new(rt.alloc());
    show.set_patch(514, 4096, 255)?;
    show.open_cue(1500)?;
    show.cue_level(1500, 4096, 3)?;
    assert!(rt; are_slots(&show.look_slots(1500, 1), 0, 3));
    Ok(())
}
