ghost use Rattle.std.specs.Prelude.{◌≡◌, List, [], ◌∷◌, ◌++◌, is_err};
ghost use Rattle.targets.specs.Datagram.{Packet, with_datagram};

use crate::Address;
use devices::LinkFault;

/// Where the datagrams of packets are sent: a socket.
///
/// A sender *tells* where contracts can see what it was offered, under the rules of a
/// [`Link`](devices::Link).
pub trait Sender {
    /// Contracts can see what the sender was offered.
    ghost tells: { Self → Type 0 };

    /// The packets that the sender was offered, the first first, each with its datagrams, those
    /// that failed too.
    ghost offered: { Self → List Packet };

    /// Begins a packet: the datagrams that are sent from now on are of it.
    fn begin(&mut self, universe: u16, bytes: &[u8])
        ensures told { tells self.new → tells self.old }
        ensures begun { tells self.new → offered self.new ≡ offered self.old
            ++ record { universe = universe; bytes = bytes.now; datagrams = [] } ∷ [] };

    /// Sends a datagram to an address. A failed send is not made again.
    fn send_to(&mut self, to: Address, bytes: &[u8]) -> Result<(), LinkFault>
        ensures told { tells self.new → tells self.old }
        ensures offered { tells self.new → offered self.new ≡ with_datagram (offered self.old)
            (record { to = to; bytes = bytes.now; failed = is_err result }) };
}
