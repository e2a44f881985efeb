ghost use Rattle.std.specs.Prelude.{[]};

use devices::LinkFault;
use live_machine::MachineClock;
use std::time::{Duration, Instant};

/// The system's monotonic clock, which was started at an instant. It does not tell what it showed.
#[derive(Drop)]
pub struct SystemClock<'a> {
    rt: &'a HostRuntime,
    /// When it was started; none where no clock could be read then.
    pub start: Option<Instant>,
}

impl<'a> SystemClock<'a> {
    /// A clock that was started then.
    pub fn new(rt: &'a HostRuntime, start: Option<Instant>) -> Self {
        SystemClock { rt, start }
    }
}

impl MachineClock for SystemClock<'_> {
    ghost tells = { λ _. ⊥ };

    ghost tape = { λ _. record { items = []; failures = 0 } };

    fn time_passed(&mut self) -> Result<Duration, LinkFault> {
        let start = self.start.ok_or(LinkFault)?;
        start.elapsed(self.rt).map_err(|_| LinkFault)
    }
}
