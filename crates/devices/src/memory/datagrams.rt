ghost use Rattle.std.specs.Prelude.{◌≡◌, ◌≤◌, ◌+◌, ◌||◌, ◌&&◌, not, [], ◌∷◌, false, is_err};
ghost use Rattle.std.specs.Prelude.{IfOk, OnErr, length, map, nat_eq, take, if◌then◌else◌};
ghost use Rattle.devices.specs.Failing.{AreFirst, IsCounted, is_failing};
ghost use Rattle.devices.specs.Tape.{items_tape, with_failure, with_more};

use crate::memory::Faults;
use crate::{Datagrams, LinkFault};

/// A source of datagrams over memory. It stops telling where a datagram is asked for after the last
/// one, and fails there too.
#[derive(Debug, Drop)]
pub struct MemoryDatagrams<'a> {
    /// What it gives, in this order.
    pub datagrams: &'a [&'a [u8]],
    /// How many it has given.
    pub next: usize,
    /// A datagram was asked for after the last one.
    pub exhausted: bool,
    pub faults: Faults,
    ghost within: { next ≤ length datagrams.now },
}

impl<'a> MemoryDatagrams<'a> {
    /// A source of which the first `passing` calls pass, and the next `failing` ones fail.
    pub fn new(datagrams: &'a [&'a [u8]], passing: u64, failing: u64) -> Self
        ensures given { result.datagrams.now ≡ datagrams.now }
        ensures unread { result.next ≡ 0 }
        ensures tells { result.exhausted ≡ false }
        ensures faults { AreFirst passing failing result.faults }
    {
        MemoryDatagrams {
            datagrams,
            next: 0,
            exhausted: false,
            faults: Faults::new(passing, failing),
        }
    }
}

impl Datagrams for MemoryDatagrams<'_> {
    ghost tells = { λ m. m.exhausted ≡ false };

    ghost tape = { λ m. record {
      items = map (λ d. take 1500 d.now) (take m.next m.datagrams.now);
      failures = m.faults.failed;
    } };

    #[tactic(auto, using(std::proofs::lemmas::List::map_more))]
    fn receive(&mut self, buf: &mut [u8; 1500]) -> Result<usize, LinkFault>
        ensures fails { is_err result ≡ (is_failing self.old.faults
            || nat_eq self.old.next (length self.old.datagrams.now)) }
        ensures counts { IsCounted self.old.faults self.new.faults }
        ensures exhausted { self.new.exhausted ≡ (self.old.exhausted
            || (not (is_failing self.old.faults)
            && nat_eq self.old.next (length self.old.datagrams.now))) }
        ensures within { IfOk result (λ count. count ≤ 1500) }
        ensures told { self.new.exhausted ≡ false → self.old.exhausted ≡ false }
        ensures ok { IfOk result (λ count. self.new.exhausted ≡ false
            → items_tape (map (λ d. take 1500 d.now) (take self.new.next self.new.datagrams.now))
            self.new.faults.failed
            ≡ with_more (items_tape
            (map (λ d. take 1500 d.now) (take self.old.next self.old.datagrams.now))
            self.old.faults.failed) (take count buf.new ∷ [])) }
        ensures err { OnErr result (self.new.exhausted ≡ false
            → items_tape (map (λ d. take 1500 d.now) (take self.new.next self.new.datagrams.now))
            self.new.faults.failed
            ≡ with_failure (items_tape
            (map (λ d. take 1500 d.now) (take self.old.next self.old.datagrams.now))
            self.old.faults.failed)) }
        ensures next { self.new.next
            ≡ (if is_err result then self.old.next else self.old.next + 1) }
        ensures same { self.new.datagrams.now ≡ self.old.datagrams.now }
    {
        self.faults.count()?;
        if self.next == self.datagrams.len() {
            self.exhausted = true;
            return Err(LinkFault);
        }
        let datagram = front(self.datagrams[self.next], buf.len());
        buf[..datagram.len()].copy_from_slice(datagram);
        self.next += 1;
        Ok(datagram.len())
    }
}

#[tactic(auto, using(std::proofs::lemmas::List::take_all))]
fn front(bytes: &[u8], most: usize) -> &[u8]
    ensures within { length result.now ≤ most }
    ensures value { result.now ≡ take most bytes.now }
{
    if bytes.len() > most {
        &bytes[..most]
    } else {
        bytes
    }
}
