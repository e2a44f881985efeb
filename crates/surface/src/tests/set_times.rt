//! show_core's `set_up`, `set_down` and `set_follow`.

use show_core::{BuildFault, Cue, Rate, Show};
use std::test::Fail;

const UP: Rate = Rate {
    time: 5000,
    delay: 10,
};

const DOWN: Rate = Rate {
    time: 5_999_990,
    delay: 5_999_990,
};

fn has_times(cue: Option<Cue<'_>>, up: Rate, down: Rate, follow: Option<u32>) -> bool {
    match cue {
        Some(cue) => cue.up() == up && cue.down() == down && cue.follow() == follow,
        None => false,
    }
}

fn cue_1(show: &mut Show) -> Result<(), BuildFault> {
    show.open_cue(1000)
}

// Each is the one set last, else the other, else zeros.
#[test]
#[tactic(auto, using(crate::proofs::There::there))]
fn times(rt: HostRuntime) -> Result<(), Fail> {
    let zeros = Rate { time: 0, delay: 0 };
    let mut show = Show::new(rt.alloc());
    show.open_cue(1000)?;
    assert!(rt; has_times(show.cue(1000), zeros, zeros, None));
    show.set_down(1000, DOWN);
    assert!(rt; has_times(show.cue(1000), DOWN, DOWN, None));
    show.set_up(1000, UP);
    show.set_follow(1000, 10_000);
    assert!(rt; has_times(show.cue(1000), UP, DOWN, Some(10_000)));
    let copy = show.clone_in(rt.alloc())?;
    assert!(rt; has_times(copy.cue(1000), UP, DOWN, Some(10_000)));
    show.set_up(1000, zeros);
    show.set_follow(1000, 0);
    assert!(rt; has_times(show.cue(1000), zeros, DOWN, Some(0)));
    Ok(())
}

#[test]
fn up_alone(rt: HostRuntime) -> Result<(), Fail> {
    let mut show = Show::new(rt.alloc());
    cue_1(&mut show)?;
    if show.cue(1000).is_some() {
        show.set_up(1000, UP);
    }
    assert!(rt; has_times(show.cue(1000), UP, UP, None));
    Ok(())
}
