ghost use Rattle.std.specs.Prelude.{◌≡◌, [], ◌∷◌, ◌++◌, false, is_err, OnOk};
ghost use Rattle.devices.specs.Failing.{AreFirst, IsCounted, is_failing};
ghost use Rattle.targets.specs.Datagram.{with_datagram};
ghost use Rattle.targets.specs.Kept.{packets_of};

use crate::{Address, Sender};
use devices::LinkFault;
use devices::memory::Faults;
use std::alloc::{AllocError, Global};

/// What a sender over memory was offered.
#[derive(Debug, Drop)]
pub enum MemoryOffer {
    /// A packet begins.
    Packet {
        universe: u16,
        bytes: Vec<u8>,
    },
    /// A datagram of the last packet.
    Datagram {
        to: Address,
        bytes: Vec<u8>,
        failed: bool,
    },
}

/// A sender over memory. It stops telling where memory for a datagram is refused.
#[derive(Debug, Drop)]
pub struct MemorySender {
    alloc: Global,
    /// What it was offered, the first first.
    pub offers: Vec<MemoryOffer>,
    /// Memory was refused: offers are missing.
    pub full: bool,
    pub faults: Faults,
}

impl MemorySender {
    /// A sender of which the first `passing` sends pass, and the next `failing` ones fail.
    pub fn new(alloc: Global, passing: u64, failing: u64) -> Self
        ensures empty { result.offers.items ≡ [] }
        ensures tells { result.full ≡ false }
        ensures faults { AreFirst passing failing result.faults }
    {
        MemorySender {
            alloc,
            offers: Vec::new(alloc),
            full: false,
            faults: Faults::new(passing, failing),
        }
    }
}

#[tactic(auto, using(crate::proofs::Packets::one_more))]
fn keep_packet(
    alloc: Global,
    offers: &mut Vec<MemoryOffer>,
    universe: u16,
    bytes: &[u8],
) -> Result<(), AllocError>
    ensures { OnOk result (packets_of offers.new.items ≡ packets_of offers.old.items
        ++ record { universe = universe; bytes = bytes.now; datagrams = [] } ∷ []) }
{
    let bytes = Vec::from_slice(alloc, bytes)?;
    offers.push(MemoryOffer::Packet { universe, bytes })?;
    Ok(())
}

#[tactic(auto, using(crate::proofs::Packets::one_more))]
fn keep_datagram(
    alloc: Global,
    offers: &mut Vec<MemoryOffer>,
    to: Address,
    bytes: &[u8],
    failed: bool,
) -> Result<(), AllocError>
    ensures { OnOk result (packets_of offers.new.items ≡ with_datagram
        (packets_of offers.old.items)
        (record { to = to; bytes = bytes.now; failed = failed })) }
{
    let bytes = Vec::from_slice(alloc, bytes)?;
    offers.push(MemoryOffer::Datagram { to, bytes, failed })?;
    Ok(())
}

impl Sender for MemorySender {
    ghost tells = { λ m. m.full ≡ false };

    ghost offered = { λ m. packets_of m.offers.items };

    fn begin(&mut self, universe: u16, bytes: &[u8])
        ensures same { self.new.faults ≡ self.old.faults }
        ensures told { self.new.full ≡ false → self.old.full ≡ false }
        ensures begun { self.new.full ≡ false → packets_of self.new.offers.items
            ≡ packets_of self.old.offers.items
            ++ record { universe = universe; bytes = bytes.now; datagrams = [] } ∷ [] }
    {
        if keep_packet(self.alloc, &mut self.offers, universe, bytes).is_err() {
            self.full = true;
        }
    }

    fn send_to(&mut self, to: Address, bytes: &[u8]) -> Result<(), LinkFault>
        ensures fails { is_err result ≡ is_failing self.old.faults }
        ensures counts { IsCounted self.old.faults self.new.faults }
        ensures told { self.new.full ≡ false → self.old.full ≡ false }
        ensures offered { self.new.full ≡ false → packets_of self.new.offers.items
            ≡ with_datagram (packets_of self.old.offers.items)
            (record { to = to; bytes = bytes.now; failed = is_err result }) }
    {
        let counted = self.faults.count();
        let failed = counted.is_err();
        if keep_datagram(self.alloc, &mut self.offers, to, bytes, failed).is_err() {
            self.full = true;
        }
        counted
    }
}
