ghost use Rattle.std.specs.Prelude.{◌≡◌, ℕ, ◌-◌, ◌*◌, ◌≤◌};
ghost use Rattle.fade_core.specs.Level.{split_fade};
ghost use Rattle.fade_core.specs.Plain.{IsUnderway, level_in};

use show_core::Rate;

/// The fade that one channel is in.
#[derive(Clone, Copy, Debug)]
pub struct ChannelFade {
    pub start: u32,
    pub target: u32,
    pub rate: Rate,
    pub began: u64,
}

impl ChannelFade {
    /// The level at a moment.
    pub fn level(&self, moment: u64) -> u32
        requires { IsUnderway moment self.now }
        ensures level { result ≡ level_in self.now moment }
        ensures full { result ≤ 65025 }
    {
        let elapsed = moment - self.began;
        let delay = u64::from(self.rate.delay);
        let time = u64::from(self.rate.time);
        if elapsed >= delay + time {
            self.target
        } else if elapsed <= delay {
            self.start
        } else if self.target > self.start {
            self.start + (u64::from(self.target - self.start) * (elapsed - delay) / time) as u32
        } else {
            self.start - (u64::from(self.start - self.target) * (elapsed - delay) / time) as u32
        }
    }

    /// The fade to a byte that begins at a moment, from the level of this moment.
    #[tactic(auto, unfolding(crate::specs::Level::split_fade))]
    pub fn towards(&self, byte: u8, up: Rate, down: Rate, moment: u64) -> ChannelFade
        requires { IsUnderway moment self.now }
        ensures levels { (later : ℕ) → level_in result later
            ≡ split_fade (level_in self.now moment) (255 * byte) up down (later - moment) }
        ensures underway { IsUnderway moment result }
    {
        let start = self.level(moment);
        let target = 255 * u32::from(byte);
        ChannelFade {
            start,
            target,
            rate: if target > start { up } else { down },
            began: moment,
        }
    }
}
