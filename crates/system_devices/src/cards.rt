use crate::routes::{open_routes, route_to, source_to};
use crate::system_lines::{first_line, open_lines};
use crate::tied_socket::source_by;
use arrayvec::ArrayString;
use byte_reading::ShortLine;
use network_tables::{
    CardName, CardState, Cards, Holder, Route, add_others, card_among, card_networks, holder_of,
    host_beside, is_widest, own_addresses,
};
use packet_paths::card_from;
use std::fmt::Write;

// A line for each card.
const NAMES: &str = "/proc/net/dev";

// The tree of routes names each address of this machine.
const TREE: &str = "/proc/net/fib_trie";

// The card of the machine's own loop.
const LOOP: &str = "lo";

/// Reads the network cards of this machine from the system's files: a row for each of its
/// addresses, in their order, and then one for each other card.
pub fn read_cards(rt: &HostRuntime) -> Cards {
    let networks = card_networks(&mut open_routes(rt));
    let own = own_addresses(&mut open_lines(rt, TREE));
    let mut cards = Cards::new();
    for address in own.as_slice() {
        let card = card_of(rt, *address, own.as_slice(), networks.as_slice());
        cards.add(card, Some(*address));
    }
    add_others(&mut cards, &mut open_lines(rt, NAMES));
    cards
}

// The card that has an address of this machine, whose own addresses are these, by the routes to the
// networks at which cards are. Only where several cards are at its network the system is asked.
fn card_of(
    rt: &HostRuntime,
    address: [u8; 4],
    own: &[[u8; 4]],
    networks: &[Route],
) -> Option<CardName> {
    match holder_of(address, networks) {
        Holder::Loop => CardName::from(LOOP).ok(),
        Holder::Card(name) => Some(name),
        Holder::OneOf {
            network,
            first,
            other,
        } => {
            let host = host_beside(network, own)?;
            let asked = ask_cards(rt, address, host, networks);
            card_among(address, &asked, source_to(rt, host), first, other)
        }
        Holder::Unknown => None,
    }
}

// The cards at the networks of an address, each with the address that the system sends from by it
// to a host.
fn ask_cards(rt: &HostRuntime, address: [u8; 4], host: [u8; 4], networks: &[Route]) -> Cards {
    let mut asked = Cards::new();
    for network in networks {
        if is_widest(address, networks, network) {
            let source = source_by(rt, network.card.as_str(), host);
            asked.add(Some(network.card), source);
        }
    }
    asked
}

/// The card of an address of this machine that packets to a host come from.
pub fn card_to(rt: &HostRuntime, address: [u8; 4], host: [u8; 4]) -> CardName {
    let card = read_cards(rt).of_address(address);
    card_from(card.and_then(|card| card.name), route_to(rt, host))
}

/// How the card of this name is, by the system's files.
pub fn card_state(rt: &HostRuntime, name: &str) -> CardState {
    let flags = card_line(rt, name, "flags");
    let state = card_line(rt, name, "operstate");
    network_tables::card_state(flags.as_bytes(), state.as_bytes())
}

/// The number that the system gives the card of this name. A card that is plugged in anew has
/// another one.
pub fn card_index(rt: &HostRuntime, name: &str) -> Option<u32> {
    card_line(rt, name, "ifindex").as_str().parse::<u32>().ok()
}

// The first line of a file of a card; empty where there is none.
fn card_line(rt: &HostRuntime, name: &str, file: &str) -> ShortLine {
    let mut path = ArrayString::<64>::new();
    let _ = write!(path, "/sys/class/net/{name}/{file}");
    first_line(rt, path.as_str()).unwrap_or_default()
}
