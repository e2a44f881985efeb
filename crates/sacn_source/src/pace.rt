ghost use Rattle.std.specs.Prelude.{◌≡◌, ◌<◌, ◌≤◌, ◌+◌, ◌^◌, []};
ghost use Rattle.sacn_source.specs.Pacing.{Paces, pace_changes, is_due, pace_after, pace_ended};

use std::marker::Model;

// The frame of a change is sent once and three times more.
const REPEATS: u8 = 3;

// Without a change or a repeat a packet goes out this many milliseconds after the one before.
const KEEP_ALIVE: u64 = 800;

/// How many packets of a universe there were, and what decides when the next one is due.
#[derive(Debug, Drop)]
pub struct Pace {
    sent: u64,
    repeats: u8,
    last_sent: u64,
    earliest: u64,
    ended: u8,
}

impl Model for Pace {
    ghost use Rattle.sacn_source.specs.Kept as kept;

    ghost Value = { kept.Pace };

    ghost use Rattle.sacn_source.specs.Inside.{pace_view};
    ghost use Rattle.sacn_source.specs.Pacing.{IsPace};

    ghost view = { pace_view };

    ghost invariant = { λ pace. IsPace (pace_view pace) };
}

impl Pace {
    /// The pace before the first offer.
    pub fn new() -> Self
        ensures { Paces result [] 0 }
    {
        Pace {
            sent: 0,
            repeats: 0,
            last_sent: 0,
            earliest: 0,
            ended: 0,
        }
    }

    /// How many packets there were, terminations and lost ones too.
    pub fn packets_sent(&self) -> u64
        ensures value { result ≡ self.now.sent }
        ensures below { result < 2 ^ 48 + 4 }
    {
        self.sent
    }

    /// Takes an offer, and answers whether it sends. The first is a change even where its frame is
    /// the one that was kept.
    pub fn take_offer(&mut self, differs: bool, moment: u64) -> bool
        requires later { self.old.earliest ≤ moment }
        requires below { moment < 2 ^ 48 }
        ensures due { result ≡ is_due self.old (pace_changes self.old differs) moment }
        ensures state { self.new ≡ pace_after self.old (pace_changes self.old differs) moment }
    {
        let changed = differs || self.earliest == 0;
        let due = changed || self.repeats > 0 || self.last_sent + KEEP_ALIVE <= moment;
        self.repeats = if changed {
            REPEATS
        } else {
            self.repeats.saturating_sub(1)
        };
        self.last_sent = if due { moment } else { self.last_sent };
        self.sent = if due { self.sent + 1 } else { self.sent };
        self.earliest = moment + 1;
        due
    }

    /// Takes a termination, which always sends.
    pub fn take_termination(&mut self)
        requires { self.old.ended < 3 }
        ensures { self.new ≡ pace_ended self.old }
    {
        self.sent += 1;
        self.ended += 1;
    }
}
