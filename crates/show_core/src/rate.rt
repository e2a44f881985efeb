ghost use Rattle.std.specs.Prelude.{◌↔◌, IsTrue};
ghost use Rattle.show_core.specs.Cues.{IsRateInRange};

use crate::limits::LONGEST_TIME;

/// How a move changes levels, in milliseconds: after the delay, over the time.
#[derive(Clone, Copy, Debug, PartialEq, Eq)]
pub struct Rate {
    pub time: u32,
    pub delay: u32,
}

impl Rate {
    /// Whether the time and the delay are each at most [`LONGEST_TIME`], as those of a cue are.
    pub fn is_in_range(self) -> bool
        ensures { IsTrue result ↔ IsRateInRange self }
    {
        self.time <= LONGEST_TIME && self.delay <= LONGEST_TIME
    }
}
