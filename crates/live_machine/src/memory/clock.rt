ghost use Rattle.std.specs.Prelude.{◌≡◌, ◌+◌, [], ◌∷◌, ◌++◌, List, ℕ, false, is_err, map, min};
ghost use Rattle.std.specs.Prelude.{IfOk, OnErr};
ghost use Rattle.std.specs.Duration.{as_nanos, max_nanos};
ghost use Rattle.devices.specs.Failing.{AreFirst, IsCounted, is_failing};
ghost use Rattle.devices.specs.Tape.{items_tape, with_failure, with_more};

use crate::clock::MachineClock;
use devices::LinkFault;
use devices::memory::Faults;
use std::alloc::Global;
use std::time::Duration;

/// A clock over memory. It stops telling where memory for a reading is refused.
#[derive(Debug, Drop)]
pub struct MemoryClock {
    /// What it shows next.
    pub next: Duration,
    /// So much passes from one reading to the next.
    pub step: Duration,
    /// What it showed, the first first.
    pub readings: Vec<Duration>,
    /// Memory was refused: readings are missing.
    pub full: bool,
    pub faults: Faults,
}

impl MemoryClock {
    /// A clock that begins at 0, and of which the first `passing` readings pass, and the next
    /// `failing` ones fail.
    pub fn new(alloc: Global, step: Duration, passing: u64, failing: u64) -> Self
        ensures empty { result.readings.items ≡ [] }
        ensures start { as_nanos result.next ≡ 0 }
        ensures step { result.step ≡ step }
        ensures tells { result.full ≡ false }
        ensures faults { AreFirst passing failing result.faults }
    {
        MemoryClock {
            next: Duration::ZERO,
            step,
            readings: Vec::new(alloc),
            full: false,
            faults: Faults::new(passing, failing),
        }
    }
}

impl MachineClock for MemoryClock {
    ghost tells = { λ m. m.full ≡ false };

    ghost tape = { λ m. items_tape (map as_nanos m.readings.items) m.faults.failed };

    fn time_passed(&mut self) -> Result<Duration, LinkFault>
        ensures fails { is_err result ≡ is_failing self.old.faults }
        ensures counts { IsCounted self.old.faults self.new.faults }
        ensures shows { IfOk result (λ passed. (passed ≡ self.old.next) × (as_nanos self.new.next
            ≡ min (as_nanos self.old.next + as_nanos self.old.step) max_nanos)) }
        ensures fault { OnErr result (self.new.next ≡ self.old.next) }
        ensures step { self.new.step ≡ self.old.step }
        ensures told { self.new.full ≡ false → self.old.full ≡ false }
        ensures ok { IfOk result (λ passed. self.new.full ≡ false
            → items_tape (map as_nanos self.new.readings.items) self.new.faults.failed
            ≡ with_more (items_tape (map as_nanos self.old.readings.items) self.old.faults.failed)
            (as_nanos passed ∷ [])) }
        ensures err { OnErr result (self.new.full ≡ false
            → items_tape (map as_nanos self.new.readings.items) self.new.faults.failed
            ≡ with_failure (items_tape (map as_nanos self.old.readings.items)
            self.old.faults.failed)) }
    {
        self.faults.count()?;
        let passed = self.next;
        self.next = passed.saturating_add(self.step);
        if self.readings.push(passed).is_err() {
            self.full = true;
        }
        Ok(passed)
    }
}
