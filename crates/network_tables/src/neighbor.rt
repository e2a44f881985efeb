ghost use Rattle.std.specs.Prelude.{◌≡◌, IfNone, IfSome};
ghost use Rattle.network_tables.specs.Fields.{field};
ghost use Rattle.network_tables.specs.Neighbors.{IsNeighbor, silence_after, silence_by};
ghost use Rattle.network_tables.specs.Neighbors.{silence_toward};

use crate::fields::{field, flags};
use std::net::Ipv4Addr;

// Set in the flags of a neighbor whose card's address is known.
const ANSWERED: u32 = 0x2;

/// A neighbor is silent where it did not answer at so many looks one behind the other.
pub const SILENCE: u8 = 2;

/// A machine at the network of one of this one's cards, and whether it answered.
#[derive(Clone, Copy, Debug)]
pub struct Neighbor {
    pub address: Ipv4Addr,
    pub has_answered: bool,
}

impl Neighbor {
    /// Reads a line of `/proc/net/arp`: the address, the kind of card, and the flags. A line that
    /// is none of a neighbor, as the heading, gives `None`.
    pub fn read(line: &[u8]) -> Option<Neighbor>
        ensures some { IfSome result (λ neighbor. IsNeighbor line.now neighbor) }
        ensures none { IfNone result ((neighbor : Neighbor) → IsNeighbor line.now neighbor
            → ⊥) }
    {
        match (Ipv4Addr::parse_ascii(field(line, 0)), flags(field(line, 2))) {
            (Ok(address), Some(flags)) => Some(Neighbor {
                address,
                has_answered: flags & ANSWERED != 0,
            }),
            _ => None,
        }
    }

    /// At how many looks one behind the other the first taker of a way did not answer, after a look
    /// that found this row. It says something of this taker alone, and where the card has a link.
    pub fn silence_of(&self, taker: Option<[u8; 4]>, has_link: bool, silence: u8) -> u8
        ensures { result ≡ silence_by self.now taker has_link silence }
    {
        match taker {
            Some(taker) if has_link && taker == self.address.octets() => {
                silence_after(silence, self.has_answered)
            }
            _ => silence,
        }
    }
}

/// The same, where who takes the packets of the way first is this other machine from now on: it is
/// silent until it is known to answer. `None` is this machine itself.
pub fn silence_toward(taker: Option<[u8; 4]>, silence: u8) -> u8
    ensures { result ≡ silence_toward taker silence }
{
    match taker {
        Some(_) => silence,
        None => 0,
    }
}

/// At how many looks one behind the other a neighbor did not answer, up to [`SILENCE`], after a
/// look that found this.
pub fn silence_after(silence: u8, has_answered: bool) -> u8
    ensures { result ≡ silence_after silence has_answered }
{
    if has_answered {
        return 0;
    }
    silence.saturating_add(1).min(SILENCE)
}
