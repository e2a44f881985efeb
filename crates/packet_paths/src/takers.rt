ghost use Rattle.std.specs.Prelude.{◌≡◌, codes};
ghost use Rattle.packet_paths.specs.Takers.{card_from, first_taker, is_taken_here};

use network_tables::{CardName, Route};

// The first number of the addresses of the machine's own loop.
const LOOP: u8 = 127;

// In the place of a name.
const UNKNOWN: &str = "?";

/// Whether this machine itself takes the packets from this address to a host.
pub fn is_taken_here(host: [u8; 4], address: [u8; 4]) -> bool
    ensures { result ≡ is_taken_here host address }
{
    address == host || address[0] == LOOP
}

/// Who takes the packets to a host first, by the route there, where that is another machine.
pub fn first_taker(host: [u8; 4], route: Option<Route>) -> Option<[u8; 4]>
    ensures { result ≡ first_taker host route }
{
    Some(route?.gateway.unwrap_or(host))
}

/// The card that packets come from, by that of their address, where it is known, and by the route
/// to their host.
pub fn card_from(card: Option<CardName>, route: Option<Route>) -> CardName
    ensures { result.bytes ≡ card_from card route }
{
    match (card, route) {
        (Some(card), _) => card,
        (None, Some(route)) => route.card,
        (None, None) => unknown_card(),
    }
}

fn unknown_card() -> CardName
    ensures { result.bytes ≡ codes "?" }
{
    let mut name = CardName::new();
    name.push_str(UNKNOWN);
    name
}
