ghost use Rattle.std.specs.Prelude.{◌≡◌, ◌≤◌, ℕ, [], ◌∷◌, IfOk, OnErr};
ghost use Rattle.devices.specs.Tape.{Tape, with_failure, with_more};
ghost use Rattle.std.specs.Duration.{as_nanos};
ghost use Rattle.live_machine.specs.Clock.{IsClockRight, moment_at};

use devices::LinkFault;
use std::time::Duration;

/// The clock of the machine, which never falls.
///
/// It *tells* where contracts can see what it showed, under the rules of an
/// [`Output`](devices::Output).
pub trait MachineClock {
    /// Contracts can see what the clock showed.
    ghost tells: { Self → Type 0 };

    /// What it showed, in nanoseconds since it was started.
    ghost tape: { Self → Tape ℕ };

    /// How long it has been since the clock was started.
    ///
    /// # Errors
    ///
    /// Where the clock cannot be read.
    fn time_passed(&mut self) -> Result<Duration, LinkFault>
        ensures told { tells self.new → tells self.old }
        ensures ok { IfOk result (λ passed. tells self.new
            → tape self.new ≡ with_more (tape self.old) (as_nanos passed ∷ [])) }
        ensures err { OnErr result (tells self.new
            → tape self.new ≡ with_failure (tape self.old)) };
}

/// The clock of a night: the machine's, and the moment at which it was started.
#[derive(Debug, Drop)]
pub struct NightClock<C> {
    pub clock: C,
    /// In milliseconds from the start of the night.
    pub start: u64,
}

impl<C: MachineClock> NightClock<C> {
    /// A clock that showed this moment, in milliseconds from the start of the night, when the
    /// machine's was started.
    pub fn new(clock: C, start: u64) -> Self
        ensures { result ≡ record { clock = clock; start = start } }
    {
        NightClock { clock, start }
    }

    /// The moment, in milliseconds from the start of the night.
    ///
    /// # Errors
    ///
    /// Where the machine's clock cannot be read.
    pub fn moment(&mut self) -> Result<u64, LinkFault>
        ensures told { C.tells self.new.clock → C.tells self.old.clock }
        ensures ok { IfOk result (λ moment. C.tells self.new.clock → (passed : ℕ)
            × (C.tape self.new.clock ≡ with_more (C.tape self.old.clock) (passed ∷ []))
            × (moment ≡ moment_at self.old.start passed)) }
        ensures err { OnErr result (C.tells self.new.clock
            → C.tape self.new.clock ≡ with_failure (C.tape self.old.clock)) }
        ensures same { self.new.start ≡ self.old.start }
    {
        let passed = self.clock.time_passed()?.as_millis();
        let passed = u64::try_from(passed).unwrap_or(u64::MAX);
        Ok(self.start.saturating_add(passed))
    }
}

/// The clock of a night is right, whatever the machine's shows.
pub fn clock_law(start: u64, earlier: Duration, later: Duration)
    requires { as_nanos earlier ≤ as_nanos later }
    ensures { IsClockRight start (as_nanos earlier) (as_nanos later) }
{}
