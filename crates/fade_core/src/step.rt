ghost use Rattle.std.specs.Prelude.{◌≡◌, ℕ, ◌-◌, ◌+◌, ◌*◌, ◌≤◌, IsTrue, All, EachIndex, length};
ghost use Rattle.std.specs.Prelude.{slice_index};
ghost use Rattle.std.specs.Ordering.{nat_cmp};
ghost use Rattle.std.specs.FinMap.{is_sorted};
ghost use Rattle.fade_core.specs.Level.{byte_of};
ghost use Rattle.fade_core.specs.Fading.{Fading, Shows, level_at};
ghost use Rattle.fade_core.specs.Step.{step_view, IsStepFading};

use crate::fader::Fader;
use crate::share::Shares;
use crate::target::Goal;
use crate::walk::{bring, restart};
use crate::ways::Ways;
use show_core::Rate;
use std::alloc::{AllocError, Global};
use std::marker::Model;

/// Works on those channels alone that have somewhere to go, and divides at most twice for all of
/// them together.
#[derive(Debug, Drop)]
pub struct StepFader {
    up: Rate,
    down: Rate,
    began: u64,
    latest: u64,
    // The level of each channel at the last start, in the end and now.
    from: Vec<u16>,
    to: Vec<u16>,
    levels: Vec<u16>,
    // The channels that may still move: the first `count`.
    count: usize,
    moving: Vec<u16>,
}

impl Model for StepFader {
    ghost Value = { Fading };

    ghost view = { step_view };

    ghost invariant = { IsStepFading };
}

impl StepFader {
    // Moves on to this moment, with two divisions at most.
    fn step_to(&mut self, moment: u64)
        requires { self.old.latest ≤ moment }
        ensures { self.new ≡ record self.old { latest = moment } }
    {
        let shares = Shares::at(self.up, self.down, moment - self.began);
        let ways = Ways {
            from: &self.from,
            to: &self.to,
        };
        bring(&mut self.levels, ways, &self.moving, self.count, &shares);
        if shares.are_whole() {
            self.count = 0;
        }
        self.latest = moment;
    }

    // Starts a fade to a look from the levels of this moment.
    fn aim(&mut self, look: &[(u16, u8)], up: Rate, down: Rate)
        requires ascending { IsTrue (is_sorted nat_cmp look.now) }
        requires in_range { All (λ pair. (1 ≤ pair.0) × (pair.0 ≤ length self.old.from)) look.now }
        ensures from { EachIndex self.new.from (λ place. slice_index self.new.from place
            ≡ level_at self.old place self.old.latest) }
        ensures to { EachIndex self.new.from (λ place. slice_index self.new.to place
            ≡ 255 * byte_of look.now (place + 1)) }
        ensures channels { length self.new.from ≡ length self.old.from }
        ensures up { self.new.up ≡ up }
        ensures down { self.new.down ≡ down }
        ensures began { self.new.began ≡ self.old.latest }
        ensures latest { self.new.latest ≡ self.old.latest }
    {
        self.count = restart(
            &mut self.from,
            &mut self.to,
            &mut self.levels,
            &mut self.moving,
            Goal { look, up, down },
        );
        self.up = up;
        self.down = down;
        self.began = self.latest;
    }
}

impl Fader for StepFader {
    ghost stands_for = { Shows };

    ghost latest = { λ fading. fading.latest };

    ghost channels = { λ fading. length fading.from };

    fn new(alloc: Global, channel_count: u16) -> Result<Self, AllocError> {
        let at_once = Rate { time: 0, delay: 0 };
        Ok(StepFader {
            // The levels first, so that a walk never reads a little ahead of what it writes, modulo
            // 4096: there a processor takes the read for one of what was written, and waits.
            levels: vec![in alloc; 0; usize::from(channel_count)]?,
            from: vec![in alloc; 0; usize::from(channel_count)]?,
            to: vec![in alloc; 0; usize::from(channel_count)]?,
            moving: vec![in alloc; 0; usize::from(channel_count)]?,
            count: 0,
            up: at_once,
            down: at_once,
            began: 0,
            latest: 0,
        })
    }

    fn start(&mut self, look: &[(u16, u8)], up: Rate, down: Rate, moment: u64) {
        self.step_to(moment);
        self.aim(look, up, down);
    }

    fn advance(&mut self, moment: u64) {
        self.step_to(moment);
    }

    fn level(&self, channel: u16) -> u32 {
        u32::from(self.levels[usize::from(channel) - 1])
    }

    fn levels(&self) -> Option<&[u16]> {
        Some(&self.levels)
    }

    fn moving_channels(&self) -> Option<&[u16]> {
        Some(&self.moving[..self.count])
    }
}
