//! playback_core: go_back_goto, follow_at_tick, follow_then_go, follow_after_goto, follow_zero,
//! and the fine levels of five_second_fade, split_crossfade and goto_mid_fade, with both faders.

use super::rows::{FOLLOWED, FOLLOWED_AT_ONCE, S1, show_of};
use fade_core::{Fader, PlainFader, StepFader};
use playback_core::{NoMove, Playback};
use show_core::Show;
use std::alloc::{AllocError, Global};
use std::process::Abort;
use std::test::Fail;

fn moves<F: Fader>(rt: &impl Abort, alloc: Global, show: &Show) -> Result<(), AllocError> {
    let mut playback = Playback::<F>::new(alloc)?;
    assert!(rt; playback.current() == None);
    assert!(rt; playback.back(show, 0) == Err(NoMove::AtStart));
    assert!(rt; playback.go(show, 0) == Ok(1000));
    assert!(rt; playback.back(show, 0) == Err(NoMove::AtStart));
    assert!(rt; playback.go(show, 0) == Ok(1500));
    assert!(rt; playback.go(show, 0) == Ok(2000));
    assert!(rt; playback.go(show, 0) == Err(NoMove::AtEnd));
    assert!(rt; playback.back(show, 0) == Ok(1500));
    assert!(rt; playback.goto(show, 1750, 0) == Err(NoMove::NoCue));
    assert!(rt; playback.current() == Some(1500));
    Ok(())
}

#[test]
fn go_back_goto(rt: HostRuntime) -> Result<(), Fail> {
    let show = show_of(rt.alloc(), b"CUE 1\nCUE 1.5\nCUE 2")?;
    moves::<PlainFader>(&rt, rt.alloc(), &show)?;
    moves::<StepFader>(&rt, rt.alloc(), &show)?;
    Ok(())
}

fn levels<F: Fader>(playback: &Playback<F>) -> (u32, u32) {
    (playback.level(1), playback.level(2))
}

fn fades<F: Fader>(rt: &impl Abort, alloc: Global, show: &Show) -> Result<(), AllocError> {
    let mut playback = Playback::<F>::new(alloc)?;
    assert!(rt; playback.go(show, 0) == Ok(1000));
    playback.advance(show, 2500);
    assert!(rt; levels(&playback) == (32512, 0));
    playback.advance(show, 2525);
    assert!(rt; levels(&playback) == (32837, 0));
    assert!(rt; playback.go(show, 10_000) == Ok(2000));
    playback.advance(show, 11_000);
    assert!(rt; levels(&playback) == (48769, 32512));
    assert!(rt; playback.goto(show, 1000, 11_000) == Ok(1000));
    playback.advance(show, 12_000);
    assert!(rt; levels(&playback) == (52020, 26010));
    assert!(rt; playback.level(4096) == 0);
    Ok(())
}

#[test]
fn goto_mid_fade(rt: HostRuntime) -> Result<(), Fail> {
    let show = show_of(rt.alloc(), S1)?;
    fades::<PlainFader>(&rt, rt.alloc(), &show)?;
    fades::<StepFader>(&rt, rt.alloc(), &show)?;
    Ok(())
}

fn follows<F: Fader>(rt: &impl Abort, alloc: Global, show: &Show) -> Result<(), AllocError> {
    let mut playback = Playback::<F>::new(alloc)?;
    assert!(rt; playback.go(show, 0) == Ok(1000));
    assert!(rt; playback.go(show, 10_000) == Err(NoMove::AtEnd));
    assert!(rt; playback.current() == Some(1000));
    playback.advance(show, 11_000);
    assert!(rt; playback.current() == Some(2000));
    assert!(rt; levels(&playback) == (48769, 32512));
    Ok(())
}

#[test]
fn follow_at_tick(rt: HostRuntime) -> Result<(), Fail> {
    let show = show_of(rt.alloc(), FOLLOWED)?;
    follows::<PlainFader>(&rt, rt.alloc(), &show)?;
    follows::<StepFader>(&rt, rt.alloc(), &show)?;
    Ok(())
}

fn follows_goto<F: Fader>(rt: &impl Abort, alloc: Global, show: &Show) -> Result<(), AllocError> {
    let mut playback = Playback::<F>::new(alloc)?;
    assert!(rt; playback.go(show, 0) == Ok(1000));
    assert!(rt; playback.goto(show, 1000, 5000) == Ok(1000));
    playback.advance(show, 10_000);
    assert!(rt; playback.current() == Some(1000));
    playback.advance(show, 15_000);
    assert!(rt; playback.current() == Some(2000));
    playback.advance(show, 16_000);
    assert!(rt; levels(&playback) == (48769, 32512));
    Ok(())
}

#[test]
fn follow_after_goto(rt: HostRuntime) -> Result<(), Fail> {
    let show = show_of(rt.alloc(), FOLLOWED)?;
    follows_goto::<PlainFader>(&rt, rt.alloc(), &show)?;
    follows_goto::<StepFader>(&rt, rt.alloc(), &show)?;
    Ok(())
}

fn at_once<F: Fader>(rt: &impl Abort, alloc: Global, show: &Show) -> Result<(), AllocError> {
    let mut playback = Playback::<F>::new(alloc)?;
    assert!(rt; playback.go(show, 0) == Ok(1000));
    assert!(rt; playback.current() == Some(1000));
    playback.advance(show, 0);
    assert!(rt; playback.current() == Some(2000));
    playback.advance(show, 1000);
    assert!(rt; levels(&playback) == (0, 32512));
    Ok(())
}

#[test]
fn follow_zero(rt: HostRuntime) -> Result<(), Fail> {
    let show = show_of(rt.alloc(), FOLLOWED_AT_ONCE)?;
    at_once::<PlainFader>(&rt, rt.alloc(), &show)?;
    at_once::<StepFader>(&rt, rt.alloc(), &show)?;
    Ok(())
}

// `stop` makes the due moves, and then lets none be due.
fn stops<F: Fader>(rt: &impl Abort, alloc: Global, show: &Show) -> Result<(), AllocError> {
    let mut playback = Playback::<F>::new(alloc)?;
    assert!(rt; playback.go(show, 0) == Ok(1000));
    playback.stop(show, 9999);
    playback.advance(show, 20_000);
    assert!(rt; playback.current() == Some(1000));
    Ok(())
}

#[test]
fn stop(rt: HostRuntime) -> Result<(), Fail> {
    let show = show_of(rt.alloc(), FOLLOWED)?;
    stops::<PlainFader>(&rt, rt.alloc(), &show)?;
    stops::<StepFader>(&rt, rt.alloc(), &show)?;
    Ok(())
}
