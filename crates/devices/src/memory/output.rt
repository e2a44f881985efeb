ghost use Rattle.std.specs.Prelude.{◌≡◌, [], ◌++◌, false, is_err, OnOk, OnErr};
ghost use Rattle.devices.specs.Failing.{AreFirst, IsCounted, is_failing};

use crate::memory::Faults;
use crate::{LinkFault, Output};
use std::alloc::Global;

/// An output over memory. It stops telling where memory for the bytes is refused.
#[derive(Debug, Drop)]
pub struct MemoryOutput {
    /// What it took.
    pub bytes: Vec<u8>,
    /// Memory was refused: bytes are missing.
    pub full: bool,
    pub faults: Faults,
}

impl MemoryOutput {
    /// An output of which the first `passing` writes pass, and the next `failing` ones fail.
    pub fn new(alloc: Global, passing: u64, failing: u64) -> Self
        ensures empty { result.bytes.items ≡ [] }
        ensures tells { result.full ≡ false }
        ensures faults { AreFirst passing failing result.faults }
    {
        MemoryOutput {
            bytes: Vec::new(alloc),
            full: false,
            faults: Faults::new(passing, failing),
        }
    }
}

impl Output for MemoryOutput {
    ghost tells = { λ m. m.full ≡ false };

    ghost tape = { λ m. record { items = m.bytes.items; failures = m.faults.failed } };

    fn write(&mut self, bytes: &[u8]) -> Result<(), LinkFault>
        ensures fails { is_err result ≡ is_failing self.old.faults }
        ensures counts { IsCounted self.old.faults self.new.faults }
        ensures told { self.new.full ≡ false → self.old.full ≡ false }
        ensures ok { OnOk result (self.new.full ≡ false
            → self.new.bytes.items ≡ self.old.bytes.items ++ bytes.now) }
        ensures err { OnErr result ((self.new.bytes.items ≡ self.old.bytes.items)
            × (self.new.full ≡ self.old.full)) }
    {
        self.faults.count()?;
        if self.bytes.extend_from_slice(bytes).is_err() {
            self.full = true;
        }
        Ok(())
    }
}
