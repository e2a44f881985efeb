ghost use Rattle.std.specs.Prelude.{◌≡◌, None, true};
ghost use Rattle.live_machine.specs.InputEnd.{is_end_told, untold_at, untold_behind_end};
ghost use Rattle.live_machine.specs.InputEnd.{untold_behind_line};

// An `end` that was typed before the input ended is given within so many milliseconds, since the
// light goes down first. Then the night does not go on, and the end of its input is not told.
const PATIENCE: u64 = 250;

/// The end of a night's input, until it is told that the night goes on without it. Moments are in
/// milliseconds from the start of the night.
#[derive(Clone, Copy, Debug, PartialEq, Eq)]
pub struct InputEnd {
    /// When the input ended, where that is still to be told.
    pub untold: Option<u64>,
}

impl InputEnd {
    /// The input has not ended yet.
    pub fn new() -> Self
        ensures { result ≡ record { untold = None } }
    {
        InputEnd { untold: None }
    }

    /// The input ended at this moment.
    pub fn come(&mut self, moment: u64, ends_night: bool)
        ensures { self.new.untold ≡ untold_behind_end ends_night moment self.old.untold }
    {
        if !ends_night {
            self.untold = Some(moment);
        }
    }

    /// A line of the night was kept, with its LF.
    pub fn pass_line(&mut self, line: &[u8])
        ensures { self.new.untold ≡ untold_behind_line line.now self.old.untold }
    {
        if line.ends_with(b" end\n") {
            self.untold = None;
        }
    }

    /// Whether it is told at this moment that the input ended; and then no more.
    pub fn is_told(&mut self, moment: u64) -> bool
        ensures told { result ≡ is_end_told moment self.old.untold }
        ensures untold { self.new.untold ≡ untold_at moment self.old.untold }
        ensures once { result ≡ true → self.new ≡ record { untold = None } }
    {
        let Some(ended) = self.untold else {
            return false;
        };
        let is_told = moment.saturating_sub(ended) >= PATIENCE;
        if is_told {
            self.untold = None;
        }
        is_told
    }
}
