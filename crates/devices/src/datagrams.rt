ghost use Rattle.std.specs.Prelude.{◌≡◌, ◌≤◌, ℕ, List, [], ◌∷◌, IfOk, OnErr, take};
ghost use Rattle.devices.specs.Tape.{Tape, with_more, with_failure};

use crate::LinkFault;

/// Where datagrams come from, one by each call.
///
/// A source *tells* where contracts can see what it gave, under the rules of an
/// [`Output`](crate::Output).
pub trait Datagrams {
    /// Contracts can see what the source did.
    ghost tells: { Self → Type 0 } = { λ _. ⊥ };

    /// The datagrams that the source gave, each of at most 1,500 bytes. A failed call gives none.
    ghost tape: { Self → Tape (List ℕ) } = { λ _. record { items = []; failures = 0 } };

    /// Waits for the next datagram, writes its bytes to the front of the buffer, and answers how
    /// many there are. Of a datagram that is longer than the buffer the first 1,500 bytes are
    /// given, and the others are lost.
    fn receive(&mut self, buf: &mut [u8; 1500]) -> Result<usize, LinkFault>
        ensures told { tells self.new → tells self.old }
        ensures within { IfOk result (λ count. count ≤ 1500) }
        ensures ok { IfOk result (λ count. tells self.new
            → tape self.new ≡ with_more (tape self.old) (take count buf.new ∷ [])) }
        ensures err { OnErr result (tells self.new → tape self.new ≡ with_failure
            (tape self.old)) };
}
