ghost use Rattle.std.specs.Prelude.{◌≡◌, ◌+◌, ◌<◌, ◌^◌, is_err};

use crate::LinkFault;

/// Which calls of a device fail: the next `passing` pass, then `failing` fail, and all later ones
/// pass.
#[derive(Clone, Copy, Debug, PartialEq, Eq)]
pub struct Faults {
    pub passing: u64,
    pub failing: u64,
    /// How many calls have failed so far.
    pub failed: u64,
    pub ghost counted: { failed + failing < 2 ^ 64 },
}

impl Faults {
    ghost use Rattle.devices.specs.Failing.{AreFirst, IsCounted, is_failing};

    /// Before the first call.
    pub fn new(passing: u64, failing: u64) -> Faults
        ensures { AreFirst passing failing result }
    {
        Faults {
            passing,
            failing,
            failed: 0,
        }
    }

    /// Counts a call, and fails where it is one of those that fail.
    pub fn count(&mut self) -> Result<(), LinkFault>
        ensures fails { is_err result ≡ is_failing self.old }
        ensures counts { IsCounted self.old self.new }
    {
        if self.passing > 0 {
            self.passing -= 1;
            return Ok(());
        }
        if self.failing == 0 {
            return Ok(());
        }
        self.failing -= 1;
        self.failed += 1;
        Err(LinkFault)
    }
}
