ghost use Rattle.std.specs.Prelude.{◌≡◌, ◌↔◌, ℕ, ◌+◌, ◌*◌, ◌/◌, ◌^◌, ◌<◌, ◌≤◌, IsTrue};
ghost use Rattle.fade_core.specs.Level.{split_fade};
ghost use Rattle.fade_core.specs.Share.{IsShareOf, level_between};

use show_core::Rate;

// So many parts are a whole way.
const PARTS: u64 = 1 << 48;

/// How much of their ways the channels of a fade have gone, in 2^48ths.
#[derive(Clone, Copy, Debug)]
pub struct Shares {
    pub rising: u64,
    pub falling: u64,
    ghost rising_in_range: { rising ≤ 2 ^ 48 },
    ghost falling_in_range: { falling ≤ 2 ^ 48 },
}

impl Shares {
    /// The shares so many milliseconds after the start.
    pub fn at(up: Rate, down: Rate, elapsed: u64) -> Self
        ensures moved { (a b : ℕ) → a < 2 ^ 16 → b < 2 ^ 16
            → level_between a b result.rising result.falling ≡ split_fade a b up down elapsed }
        ensures over { result.rising ≡ 2 ^ 48 → result.falling ≡ 2 ^ 48
            → (a b later : ℕ) → elapsed ≤ later → split_fade a b up down later ≡ b }
    {
        let rising = share_of(up, elapsed);
        let falling = if down == up {
            rising
        } else {
            share_of(down, elapsed)
        };
        Shares { rising, falling }
    }

    /// Whether each channel has arrived.
    pub fn are_whole(&self) -> bool
        ensures { IsTrue result ↔ (self.now.rising ≡ 2 ^ 48) × (self.now.falling ≡ 2 ^ 48) }
    {
        self.rising == PARTS && self.falling == PARTS
    }

    /// The level of a channel that goes from `a` to `b`.
    #[inline(always)]
    pub fn level(&self, a: u16, b: u16) -> u16
        ensures { result ≡ level_between a b self.now.rising self.now.falling }
    {
        if a < b {
            a + part_of(b - a, self.rising)
        } else {
            a - part_of(a - b, self.falling)
        }
    }
}

// That share of the way.
#[inline(always)]
fn part_of(way: u16, share: u64) -> u16
    requires { share ≤ 2 ^ 48 }
    ensures part { result ≡ way * share / 2 ^ 48 }
    ensures most { result ≤ way }
{
    (u64::from(way) * share / PARTS) as u16
}

// How much of their ways the channels of this rate have gone, so long after the start.
#[tactic(auto, unfolding(crate::specs::Share::way_gone))]
fn share_of(rate: Rate, elapsed: u64) -> u64
    ensures { IsShareOf rate elapsed result }
{
    let time = u64::from(rate.time);
    let delay = u64::from(rate.delay);
    if delay + time <= elapsed {
        PARTS
    } else if elapsed <= delay {
        0
    } else {
        fraction(elapsed - delay, time)
    }
}

// A part of a time, rounded up so that a way of 16 bits scales by it exactly. One division does for
// a time below 2^16, and leaves the last 16 binary places 0.
fn fraction(part: u64, time: u64) -> u64
    requires part { part < time }
    requires time { time < 2 ^ 32 }
    ensures range { result < 2 ^ 48 }
    ensures exact { (way : ℕ) → way < 2 ^ 16 → way * result / 2 ^ 48 ≡ way * part / time }
{
    let scaled = part * (1 << 32);
    let upper = scaled / time;
    if time < 1 << 16 {
        (upper + 1) * (1 << 16)
    } else {
        upper * (1 << 16) + scaled % time * (1 << 16) / time + 1
    }
}
