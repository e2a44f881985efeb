ghost use Rattle.std.specs.Prelude.{◌≡◌, List, [], ◌∷◌, ◌++◌, is_err};
ghost use Rattle.devices.specs.Send.{Send};

use crate::LinkFault;

/// Where packets are sent: the network, as a source of streaming ACN sees it.
///
/// A link *tells* where contracts can see what it was offered, under the rules of an
/// [`Output`](crate::Output).
pub trait Link {
    /// Contracts can see what the link was offered.
    ghost tells: { Self → Type 0 } = { λ _. ⊥ };

    /// The sends that the link was offered, those that failed too, the first first.
    ghost offered: { Self → List Send } = { λ _. [] };

    /// Sends a packet to a universe, 1 to 63999. A failed send is not made again.
    fn send(&mut self, universe: u16, bytes: &[u8]) -> Result<(), LinkFault>
        ensures told { tells self.new → tells self.old }
        ensures offered { tells self.new → offered self.new ≡ offered self.old
            ++ record { universe = universe; bytes = bytes.now; failed = is_err result } ∷ [] };
}
