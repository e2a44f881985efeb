use crate::cards::card_to;
use crate::routes::{route_to, source_to};
use link_notices::CardAddress;
use packet_paths::{Path, first_taker, is_taken_here};

/// The path as a packet finds it at this time, in nanoseconds, that comes from this source, if it
/// has one: the route to its host is looked for, where that is due.
pub fn looked_path(
    rt: &HostRuntime,
    path: Path,
    source: Option<CardAddress>,
    is_any_route: bool,
    now: Option<u64>,
) -> Path {
    let Some(source) = path.look_source(source, is_any_route) else {
        return path;
    };
    if path.is_fresh(now) {
        return path;
    }
    let mut path = path;
    path.look_time = now;
    let route = source_to(rt, path.host);
    look_for_card(rt, &mut path, source, route, false);
    path
}

/// Looks along a path where the route to its host gives this address, if there is one: who takes
/// its packets first, where that is not known or is silent; and by which card it leads.
pub fn look_along(
    rt: &HostRuntime,
    path: &mut Path,
    source: CardAddress,
    route: Option<[u8; 4]>,
    is_any_route: bool,
) {
    if let Some(address) = route
        && path.asks_taker()
    {
        path.take_taker(taker_of(rt, path.host, address));
    }
    look_for_card(rt, path, source, route, is_any_route);
}

// Who takes the packets from an address to a host first, by the main table, where that is another
// machine.
fn taker_of(rt: &HostRuntime, host: [u8; 4], address: [u8; 4]) -> Option<[u8; 4]> {
    if is_taken_here(host, address) {
        return None;
    }
    first_taker(host, route_to(rt, host))
}

// Looks by which card the route to the host leads that gives this address.
fn look_for_card(
    rt: &HostRuntime,
    path: &mut Path,
    source: CardAddress,
    route: Option<[u8; 4]>,
    is_any_route: bool,
) {
    let found = match route {
        Some(address) => Some(card_of(rt, path, &source, address)),
        None => None,
    };
    path.take_route(found, source, is_any_route);
}

// An address that the route to the host gives, with its card. One that is known is not asked for.
fn card_of(rt: &HostRuntime, path: &Path, source: &CardAddress, address: [u8; 4]) -> CardAddress {
    match path.known_card(address, source) {
        Some(known) => known,
        None => CardAddress {
            address,
            card: card_to(rt, address, path.host),
        },
    }
}
