ghost use Rattle.std.specs.Prelude.{◌≡◌, ◌++◌, ◌∷◌, [], All, List, is_err, map};
ghost use Rattle.targets.specs.Choice.{addresses_of};
ghost use Rattle.targets.specs.Datagram.{Datagram, IsSentTo, IsToAll, has_failed, send_of};
ghost use Rattle.targets.specs.Datagram.{with_datagrams};

use crate::{Address, Sender, Targets};
use devices::{Link, LinkFault};

/// The link of a source over a sender: it sends each packet to all addresses of its universe. It
/// tells where its sender does.
#[derive(Drop)]
pub struct TargetLink<S: Sender> {
    pub sender: S,
    targets: Targets,
    /// Each packet that the sender was offered went to all addresses of its universe.
    pub ghost to_all: { ∥ (S.tells sender → All (IsToAll targets) (S.offered sender)) ∥₁ },
}

impl<S: Sender> TargetLink<S> {
    /// A link that sends by this sender to these targets. The sender was offered nothing yet.
    pub fn new(sender: S, targets: Targets) -> TargetLink<S>
        requires { S.offered sender ≡ [] }
        ensures sender { result.sender ≡ sender }
        ensures targets { result.targets ≡ targets }
    {
        TargetLink { sender, targets }
    }

    /// The targets that it sends to.
    pub fn targets(&self) -> &Targets
        ensures { result.now ≡ self.now.targets }
    {
        &self.targets
    }
}

impl<S: Sender> Link for TargetLink<S> {
    ghost tells = { λ link. S.tells link.sender };

    ghost offered = { λ link. map send_of (S.offered link.sender) };

    /// Sends a packet to each address of its universe, also behind one that failed. The packet is
    /// lost where one of these sends failed.
    fn send(&mut self, universe: u16, bytes: &[u8]) -> Result<(), LinkFault>
        ensures told { S.tells self.new.sender → S.tells self.old.sender }
        ensures offered { S.tells self.new.sender → map send_of (S.offered self.new.sender)
            ≡ map send_of (S.offered self.old.sender)
            ++ record { universe = universe; bytes = bytes.now; failed = is_err result } ∷ [] }
        ensures sends { S.tells self.new.sender → (sent : List Datagram)
            × IsSentTo (addresses_of universe self.old.targets) bytes.now sent
            × (is_err result ≡ has_failed sent)
            × (S.offered self.new.sender ≡ S.offered self.old.sender
            ++ record { universe = universe; bytes = bytes.now; datagrams = sent } ∷ []) }
        ensures same { self.new.targets ≡ self.old.targets }
    {
        let addresses = self.targets.addresses(universe);
        send_packet(&mut self.sender, universe, addresses.as_slice(), bytes)
    }
}

// Sends a packet to each of these addresses.
#[tactic(auto, using(crate::proofs::Packets::of_packet))]
fn send_packet<S: Sender>(
    sender: &mut S,
    universe: u16,
    addresses: &[Address],
    bytes: &[u8],
) -> Result<(), LinkFault>
    ensures told { S.tells sender.new → S.tells sender.old }
    ensures sends { S.tells sender.new → (sent : List Datagram)
        × IsSentTo addresses.now bytes.now sent
        × (is_err result ≡ has_failed sent)
        × (S.offered sender.new ≡ S.offered sender.old
        ++ record { universe = universe; bytes = bytes.now; datagrams = sent } ∷ []) }
{
    sender.begin(universe, bytes);
    send_to_each(sender, addresses, bytes)
}

// Sends a datagram to each of these addresses, also behind one that failed.
#[tactic(auto, using(crate::proofs::Packets::datagram_more))]
fn send_to_each<S: Sender>(
    sender: &mut S,
    addresses: &[Address],
    bytes: &[u8],
) -> Result<(), LinkFault>
    ensures told { S.tells sender.new → S.tells sender.old }
    ensures sends { S.tells sender.new → (sent : List Datagram)
        × IsSentTo addresses.now bytes.now sent
        × (is_err result ≡ has_failed sent)
        × (S.offered sender.new ≡ with_datagrams (S.offered sender.old) sent) }
{
    let mut answer = Ok(());
    for address in addresses {
        if sender.send_to(*address, bytes).is_err() {
            answer = Err(LinkFault);
        }
    }
    answer
}
