ghost use Rattle.std.specs.Prelude.{◌≡◌, ℕ, ◌-◌, ◌^◌, ◌<◌, ◌≤◌, IsTrue, List, [], ◌∷◌, All};
ghost use Rattle.std.specs.Prelude.{Contains, IfOk, IfSome, length, slice_index};
ghost use Rattle.std.specs.Ordering.{nat_cmp};
ghost use Rattle.std.specs.FinMap.{is_sorted};
ghost use Rattle.show_core.specs.Numbers.{AreLevels};
ghost use Rattle.fade_core.specs.Level.{Start, level_after};

use show_core::Rate;
use std::alloc::{AllocError, Global};

/// Keeps the level of each of a fixed number of channels while cues start and time passes.
///
/// A level is a whole number from 0 to 65025, which is 255 times a level byte; all are 0 at first.
/// Channels are numbered from 1. Moments are in milliseconds, below 2^48, and never go back; the
/// latest given is 0 at first.
///
/// A start aims each channel at 255 times its byte in the look, or at 0 where the look does not
/// list it. A channel goes from its level at that moment to its target in a straight line: a rising
/// one after `up`'s delay and over `up`'s time, a falling one by `down`'s. What a division leaves
/// is dropped, so that the level never goes ahead of the line.
///
/// Only `new` takes memory.
pub trait Fader: Drop {
    /// The levels, now and at each later moment, are those that these starts make. The newest start
    /// comes first.
    ghost stands_for: { Self → List Start → Type 0 };

    /// The latest moment given.
    ghost latest: { Self → ℕ };

    /// The number of channels.
    ghost channels: { Self → ℕ };

    /// A fader with every level at 0.
    ///
    /// # Errors
    ///
    /// If an allocation failed.
    fn new(alloc: Global, channel_count: u16) -> Result<Self, AllocError>
        ensures stands { IfOk result (λ fader. stands_for fader []) }
        ensures latest { IfOk result (λ fader. latest fader ≡ 0) }
        ensures channels { IfOk result (λ fader. channels fader ≡ channel_count) };

    /// Starts a fade of all channels, from their levels at this moment, to the look: pairs of a
    /// channel and its level byte, the channels strictly ascending.
    fn start(&mut self, look: &[(u16, u8)], up: Rate, down: Rate, moment: u64)
        requires ascending { IsTrue (is_sorted nat_cmp look.now) }
        requires in_range { All (λ pair. (1 ≤ pair.0) × (pair.0 ≤ channels self.old)) look.now }
        requires not_before { latest self.old ≤ moment }
        requires below { moment < 2 ^ 48 }
        ensures stands { (starts : List Start) → stands_for self.old starts
            → let start : Start = record {
              look = look.now;
              up = up;
              down = down;
              moment = moment;
            } in
            stands_for self.new (start ∷ starts) }
        ensures latest { latest self.new ≡ moment }
        ensures channels { channels self.new ≡ channels self.old };

    /// Moves on to this moment. It starts nothing, so the levels do not depend on how often it is
    /// called.
    fn advance(&mut self, moment: u64)
        requires not_before { latest self.old ≤ moment }
        requires below { moment < 2 ^ 48 }
        ensures stands { (starts : List Start)
            → stands_for self.old starts → stands_for self.new starts }
        ensures latest { latest self.new ≡ moment }
        ensures channels { channels self.new ≡ channels self.old };

    /// The level of a channel at the latest moment given.
    fn level(&self, channel: u16) -> u32
        requires from_one { 1 ≤ channel }
        requires in_range { channel ≤ channels self.now }
        ensures level { (starts : List Start) → stands_for self.now starts
            → result ≡ level_after starts channel (latest self.now) }
        ensures full { result ≤ 65025 };

    /// The level of each channel at the latest moment given, channel 1 first, where the fader has
    /// them at hand.
    fn levels(&self) -> Option<&[u16]>
        ensures each_channel { IfSome result (λ levels.
            length levels.now ≡ channels self.now) }
        ensures levels { IfSome result (λ levels. (starts : List Start) (channel : ℕ)
            → stands_for self.now starts → 1 ≤ channel → channel ≤ channels self.now
            → slice_index levels.now (channel - 1)
            ≡ level_after starts channel (latest self.now)) }
        ensures full { IfSome result (λ levels. AreLevels levels.now) }
    {
        None
    }

    /// The channels that may have another level at a later moment, as long as nothing starts, where
    /// the fader lists them. Where it does not, each may.
    fn moving_channels(&self) -> Option<&[u16]>
        ensures in_range { IfSome result (λ moving.
            All (λ channel. (1 ≤ channel) × (channel ≤ channels self.now)) moving.now) }
        ensures others { IfSome result (λ moving. (starts : List Start) (channel moment : ℕ)
            → stands_for self.now starts → 1 ≤ channel → channel ≤ channels self.now
            → ¬ Contains moving.now channel → latest self.now ≤ moment
            → level_after starts channel moment ≡ level_after starts channel (latest self.now)) }
    {
        None
    }
}
