ghost use Rattle.std.specs.Prelude.{◌≡◌, ◌≤◌, ℕ, [], IfOk, OnErr, take};
ghost use Rattle.devices.specs.Tape.{Tape, with_more, with_failure};

use crate::LinkFault;

/// Where bytes come from, some by each call.
///
/// A feed *tells* where contracts can see what it gave, under the rules of an
/// [`Output`](crate::Output).
pub trait Feed {
    /// Contracts can see what the feed did.
    ghost tells: { Self → Type 0 } = { λ _. ⊥ };

    /// The bytes that the feed gave. A failed call gives none.
    ghost tape: { Self → Tape ℕ } = { λ _. record { items = []; failures = 0 } };

    /// The feed was read to its end.
    ghost ended: { Self → Type 0 } = { λ _. ⊥ };

    /// Writes the next bytes to the front of the buffer, and answers how many there are: none only
    /// at the end.
    fn read(&mut self, buf: &mut [u8; 4096]) -> Result<usize, LinkFault>
        ensures told { tells self.new → tells self.old }
        ensures within { IfOk result (λ count. count ≤ 4096) }
        ensures ok { IfOk result (λ count. tells self.new
            → tape self.new ≡ with_more (tape self.old) (take count buf.new)) }
        ensures end { IfOk result (λ count. count ≡ 0 → tells self.new → ended self.new) }
        ensures err { OnErr result (tells self.new → tape self.new ≡ with_failure
            (tape self.old)) };
}
