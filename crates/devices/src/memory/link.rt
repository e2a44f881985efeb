ghost use Rattle.std.specs.Prelude.{◌≡◌, [], ◌∷◌, ◌++◌, false, is_err, map, OnOk};
ghost use Rattle.devices.specs.Sends.{send_of};
ghost use Rattle.devices.specs.Failing.{AreFirst, IsCounted, is_failing};

use crate::memory::Faults;
use crate::{Link, LinkFault};
use std::alloc::{AllocError, Global};

/// One send that a link over memory was offered.
#[derive(Debug, Drop)]
pub struct MemorySend {
    pub universe: u16,
    pub bytes: Vec<u8>,
    pub failed: bool,
}

/// A link over memory. It stops telling where memory for a packet is refused.
#[derive(Debug, Drop)]
pub struct MemoryLink {
    alloc: Global,
    /// What it was offered, the first first.
    pub sends: Vec<MemorySend>,
    /// Memory was refused: sends are missing.
    pub full: bool,
    pub faults: Faults,
}

impl MemoryLink {
    /// A link of which the first `passing` sends pass, and the next `failing` ones fail.
    pub fn new(alloc: Global, passing: u64, failing: u64) -> Self
        ensures empty { result.sends.items ≡ [] }
        ensures tells { result.full ≡ false }
        ensures faults { AreFirst passing failing result.faults }
    {
        MemoryLink {
            alloc,
            sends: Vec::new(alloc),
            full: false,
            faults: Faults::new(passing, failing),
        }
    }
}

fn keep(
    alloc: Global,
    sends: &mut Vec<MemorySend>,
    universe: u16,
    bytes: &[u8],
    failed: bool,
) -> Result<(), AllocError>
    ensures { OnOk result (map send_of sends.new.items ≡ map send_of sends.old.items
        ++ record { universe = universe; bytes = bytes.now; failed = failed } ∷ []) }
{
    let bytes = Vec::from_slice(alloc, bytes)?;
    sends.push(MemorySend {
        universe,
        bytes,
        failed,
    })?;
    Ok(())
}

impl Link for MemoryLink {
    ghost tells = { λ m. m.full ≡ false };

    ghost offered = { λ m. map send_of m.sends.items };

    fn send(&mut self, universe: u16, bytes: &[u8]) -> Result<(), LinkFault>
        ensures fails { is_err result ≡ is_failing self.old.faults }
        ensures counts { IsCounted self.old.faults self.new.faults }
        ensures told { self.new.full ≡ false → self.old.full ≡ false }
        ensures offered { self.new.full ≡ false
            → map send_of self.new.sends.items ≡ map send_of self.old.sends.items
            ++ record { universe = universe; bytes = bytes.now; failed = is_err result } ∷ [] }
    {
        let counted = self.faults.count();
        let failed = counted.is_err();
        if keep(self.alloc, &mut self.sends, universe, bytes, failed).is_err() {
            self.full = true;
        }
        counted
    }
}
