ghost use Rattle.std.specs.Prelude.{◌≡◌, ◌≤◌, ◌-◌, [], ◌∷◌, ◌++◌, false, is_err, map, take, drop};
ghost use Rattle.std.specs.Prelude.{IfOk, OnErr, OnOk, Option, Result};
ghost use Rattle.devices.specs.Failing.{AreFirst, IsCounted, is_failing};
ghost use Rattle.live_machine.specs.Input.{CameFits, Wait, brought_by, fault};
ghost use Rattle.live_machine.specs.Kept.{count_of, came_of, wait_by, wait_of};

use crate::input::{Came, MachineInput};
use devices::LinkFault;
use devices::memory::Faults;
use std::alloc::{AllocError, Global};

/// One wait of an input over memory.
#[derive(Debug, Drop)]
pub struct MemoryWait {
    /// For how many milliseconds at most.
    pub most: u64,
    /// What it brought; nothing where it failed.
    pub came: Option<Came>,
    /// The block behind it.
    pub block: Vec<u8>,
}

/// An input over memory: it gives some bytes at each wait, and then its end. It stops telling where
/// memory for a wait is refused.
#[derive(Debug, Drop)]
pub struct MemoryInput<'a> {
    alloc: Global,
    /// What it has still to give.
    pub bytes: &'a [u8],
    /// The most bytes of one wait.
    pub step: usize,
    /// The waits, the first first.
    pub waits: Vec<MemoryWait>,
    /// Memory was refused: waits are missing.
    pub full: bool,
    pub faults: Faults,
}

impl<'a> MemoryInput<'a> {
    /// An input that gives at most `step` bytes by a wait, and of which the first `passing` waits
    /// pass, and the next `failing` ones fail.
    pub fn new(alloc: Global, bytes: &'a [u8], step: usize, passing: u64, failing: u64) -> Self
        ensures bytes { result.bytes.now ≡ bytes.now }
        ensures step { result.step ≡ step }
        ensures empty { result.waits.items ≡ [] }
        ensures tells { result.full ≡ false }
        ensures faults { AreFirst passing failing result.faults }
    {
        MemoryInput {
            alloc,
            bytes,
            step,
            waits: Vec::new(alloc),
            full: false,
            faults: Faults::new(passing, failing),
        }
    }

    // The next bytes, at the front of the block, or the end.
    fn give(&mut self, block: &mut [u8; 4096]) -> Came
        ensures within { CameFits result }
        ensures given { result ≡ came_of (count_of self.old.bytes.now self.old.step) }
        ensures first { take (count_of self.old.bytes.now self.old.step) block.new
            ≡ take (count_of self.old.bytes.now self.old.step) self.old.bytes.now }
        ensures rest { self.new.bytes.now
            ≡ drop (count_of self.old.bytes.now self.old.step) self.old.bytes.now }
        ensures step { self.new.step ≡ self.old.step }
        ensures waits { self.new.waits ≡ self.old.waits }
        ensures full { self.new.full ≡ self.old.full }
        ensures faults { self.new.faults ≡ self.old.faults }
    {
        let count = self.bytes.len().min(self.step).min(block.len());
        if count == 0 {
            return Came::End;
        }
        block[..count].copy_from_slice(&self.bytes[..count]);
        self.bytes = &self.bytes[count..];
        Came::Bytes(count)
    }
}

fn keep(
    alloc: Global,
    waits: &mut Vec<MemoryWait>,
    most: u64,
    came: Option<Came>,
    block: &[u8],
) -> Result<(), AllocError>
    ensures { OnOk result (map wait_of waits.new.items ≡ map wait_of waits.old.items
        ++ wait_by most came block.now ∷ []) }
{
    let block = Vec::from_slice(alloc, block)?;
    waits.push(MemoryWait { most, came, block })?;
    Ok(())
}

impl MachineInput for MemoryInput<'_> {
    ghost tells = { λ m. m.full ≡ false };

    ghost waits = { λ m. map wait_of m.waits.items };

    fn wait(&mut self, milliseconds: u64, block: &mut [u8; 4096]) -> Result<Came, LinkFault>
        ensures fails { is_err result ≡ is_failing self.old.faults }
        ensures counts { IsCounted self.old.faults self.new.faults }
        ensures told { self.new.full ≡ false → self.old.full ≡ false }
        ensures within { IfOk result CameFits }
        ensures given { IfOk result (λ came.
            (came ≡ came_of (count_of self.old.bytes.now self.old.step))
            × (take (count_of self.old.bytes.now self.old.step) block.new
            ≡ take (count_of self.old.bytes.now self.old.step) self.old.bytes.now)
            × (self.new.bytes.now
            ≡ drop (count_of self.old.bytes.now self.old.step) self.old.bytes.now)) }
        ensures fault { OnErr result (self.new.bytes.now ≡ self.old.bytes.now) }
        ensures step { self.new.step ≡ self.old.step }
        ensures ok { IfOk result (λ came. self.new.full ≡ false → map wait_of self.new.waits.items
            ≡ map wait_of self.old.waits.items
            ++ record { most = milliseconds; brought = brought_by came block.new } ∷ []) }
        ensures err { OnErr result (self.new.full ≡ false → map wait_of self.new.waits.items
            ≡ map wait_of self.old.waits.items
            ++ record { most = milliseconds; brought = fault } ∷ []) }
    {
        let counted = self.faults.count();
        let came = match counted {
            Ok(()) => Some(self.give(block)),
            Err(LinkFault) => None,
        };
        if keep(self.alloc, &mut self.waits, milliseconds, came, block).is_err() {
            self.full = true;
        }
        came.ok_or(LinkFault)
    }
}
