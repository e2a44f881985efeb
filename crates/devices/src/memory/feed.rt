ghost use Rattle.std.specs.Prelude.{◌≡◌, ◌≤◌, ◌-◌, is_err, length, min, take, ⊤, IfOk, OnErr};
ghost use Rattle.devices.specs.Failing.{AreFirst, IsCounted, is_failing};
ghost use Rattle.devices.specs.Tape.{items_tape, with_failure, with_more};

use crate::memory::Faults;
use crate::{Feed, LinkFault};

/// A feed over memory.
#[derive(Debug, Drop)]
pub struct MemoryFeed<'a> {
    /// What it gives.
    pub bytes: &'a [u8],
    /// How many bytes it has given.
    pub next: usize,
    /// The most bytes of one call.
    pub step: usize,
    pub faults: Faults,
    ghost within: { next ≤ length bytes.now },
    ghost some: { 1 ≤ step },
}

impl<'a> MemoryFeed<'a> {
    /// A feed that gives at most `step` bytes by a call, and of which the first `passing` calls
    /// pass, and the next `failing` ones fail.
    pub fn new(bytes: &'a [u8], step: usize, passing: u64, failing: u64) -> Self
        requires { 1 ≤ step }
        ensures given { result.bytes.now ≡ bytes.now }
        ensures unread { result.next ≡ 0 }
        ensures step { result.step ≡ step }
        ensures faults { AreFirst passing failing result.faults }
    {
        MemoryFeed {
            bytes,
            next: 0,
            step,
            faults: Faults::new(passing, failing),
        }
    }
}

impl Feed for MemoryFeed<'_> {
    ghost tells = { λ _. ⊤ };

    ghost tape = { λ m. items_tape (take m.next m.bytes.now) m.faults.failed };

    ghost ended = { λ m. m.next ≡ length m.bytes.now };

    fn read(&mut self, buf: &mut [u8; 4096]) -> Result<usize, LinkFault>
        ensures fails { is_err result ≡ is_failing self.old.faults }
        ensures counts { IsCounted self.old.faults self.new.faults }
        ensures within { IfOk result (λ count. count ≤ 4096) }
        ensures count { IfOk result (λ count. count
            ≡ min (min (length self.old.bytes.now - self.old.next) self.old.step) 4096) }
        ensures ok { IfOk result
            (λ count. ⊤ → items_tape (take self.new.next self.new.bytes.now) self.new.faults.failed
            ≡ with_more (items_tape (take self.old.next self.old.bytes.now) self.old.faults.failed)
            (take count buf.new)) }
        ensures end { IfOk result (λ count. count ≡ 0 → ⊤
            → self.new.next ≡ length self.new.bytes.now) }
        ensures err { OnErr result
            (⊤ → items_tape (take self.new.next self.new.bytes.now) self.new.faults.failed
            ≡ with_failure (items_tape (take self.old.next self.old.bytes.now)
            self.old.faults.failed)) }
        ensures same { (self.new.bytes.now ≡ self.old.bytes.now)
            × (self.new.step ≡ self.old.step) }
    {
        self.faults.count()?;
        let left = self.bytes.len() - self.next;
        let count = left.min(self.step).min(buf.len());
        let end = self.next + count;
        buf[..count].copy_from_slice(&self.bytes[self.next..end]);
        self.next = end;
        Ok(count)
    }
}
