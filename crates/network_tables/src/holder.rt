ghost use Rattle.std.specs.Prelude.{◌≡◌, IfNone, IfSome, take};
ghost use Rattle.network_tables.specs.Holders.{HasNoHostBeside, IsHostBeside, holder_of};
ghost use Rattle.network_tables.specs.Holders.{card_among, is_among, is_widest, networks_of};

use crate::route::{CardName, Route};
use crate::table::Cards;
use arrayvec::ArrayVec;

// The first number of the addresses of the machine's own loop.
const LOOP: u8 = 127;

// So many hosts are tried at a network; a machine is known to have fewer addresses.
const MOST_TRIES: u32 = 65;

/// Whose card an address of this machine is.
#[derive(Clone, Copy, Debug)]
pub enum Holder {
    /// The machine's own loop.
    Loop,
    /// This card.
    Card(CardName),
    /// One of several cards at one network: the first, and the other where there are two. Which
    /// one it is, [`card_among`] says.
    OneOf {
        network: u32,
        first: CardName,
        other: Option<CardName>,
    },
    /// No card is at a network of the address.
    Unknown,
}

/// Whose card an address of this machine is, by the routes to the networks at which cards are.
pub fn holder_of(address: [u8; 4], networks: &[Route]) -> Holder
    ensures { result ≡ holder_of address networks.now }
{
    if address[0] == LOOP {
        return Holder::Loop;
    }
    match networks_of(address, networks).as_slice() {
        [] => Holder::Unknown,
        [only] => Holder::Card(only.card),
        [first, other] => Holder::OneOf {
            network: first.network,
            first: first.card,
            other: Some(other.card),
        },
        [first, ..] => Holder::OneOf {
            network: first.network,
            first: first.card,
            other: None,
        },
    }
}

/// Of several cards at one network the one that an address is of, as far as the system tells: that
/// which has it in the table of the cards that were asked, each with the address that the system
/// sends from by it to a host there; else the first, where it sends from the address by any; else
/// the other.
pub fn card_among(
    address: [u8; 4],
    asked: &Cards,
    sends_from: Option<[u8; 4]>,
    first: CardName,
    other: Option<CardName>,
) -> Option<CardName>
    ensures { result ≡ card_among address asked.now.rows.items sends_from first other }
{
    if let Some(card) = asked.of_address(address)
        && card.name.is_some()
    {
        return card.name;
    }
    match sends_from {
        Some(source) if source == address => Some(first),
        _ => other,
    }
}

// The first three networks of an address.
fn networks_of(address: [u8; 4], networks: &[Route]) -> ArrayVec<Route, 3>
    ensures { result.items ≡ take 3 (networks_of address networks.now) }
{
    let mut found = ArrayVec::new();
    for network in networks {
        if is_widest(address, networks, network) {
            let _ = found.try_push(*network);
        }
    }
    found
}

/// Whether a network is one of those at which the card of an address may be: it holds the address,
/// and of those that do none looks at more bits.
pub fn is_widest(address: [u8; 4], networks: &[Route], network: &Route) -> bool
    ensures { result ≡ is_widest address networks.now network.now }
{
    network.leads_to(address)
        && networks.iter().all(|other| !other.leads_to(address) || other.width() <= network.width())
}

/// A host of a network that is not this machine: of the 65 first hosts of the network of this
/// address, the first that is none of these. `None` where all are.
pub fn host_beside(network: u32, own: &[[u8; 4]]) -> Option<[u8; 4]>
    ensures some { IfSome result (λ host. IsHostBeside network own.now host) }
    ensures none { IfNone result (HasNoHostBeside network own.now) }
{
    for place in 0..MOST_TRIES {
        let host = network.wrapping_add(place + 1).to_be_bytes();
        if !own.contains(&host) {
            return Some(host);
        }
    }
    None
}
