use crate::cards::card_index;
use packet_paths::{is_tied, machine_by, mapped_address, other_index};
use std::net::{SocketAddr, UdpSocket};

// A datagram to this port is thrown away. None is sent.
const PORT: u16 = 9;

/// A socket at an address that sends by the card of this number alone; `None` where the system ties
/// none. Where the system's route leads by another card, or the card is down, a packet fails.
pub fn open_tied(
    rt: &HostRuntime,
    address: [u8; 4],
    index: u32,
    never_waits: bool,
) -> Option<UdpSocket> {
    let socket = tie(rt, address, index)?;
    socket.set_nonblocking(never_waits).ok()?;
    Some(socket)
}

// The library has no option for it. But a socket that is to be connected to a link-local address is
// tied to the card that this address names (ipv6(7), `sin6_scope_id`), also where the connection
// fails, as from an address of IPv4. Whether it is tied shows at once: another card is then refused
// for that reason.
fn tie(rt: &HostRuntime, address: [u8; 4], index: u32) -> Option<UdpSocket> {
    let socket = UdpSocket::bind(rt, mapped_address(address, 0)).ok()?;
    let own = socket.connect(machine_by(index)).err()?.kind();
    let other = socket.connect(machine_by(other_index(index))).err()?.kind();
    if is_tied(own, other) {
        Some(socket)
    } else {
        None
    }
}

/// The address that a packet to this host would come from by this card; `None` where the system
/// does not tell. No packet is sent.
pub fn source_by(rt: &HostRuntime, card: &str, host: [u8; 4]) -> Option<[u8; 4]> {
    let socket = tie(rt, [0, 0, 0, 0], card_index(rt, card)?)?;
    socket.connect(mapped_address(host, PORT)).ok()?;
    match socket.local_addr() {
        Ok(SocketAddr::V6(address)) => Some(address.ip().to_ipv4_mapped()?.octets()),
        _ => None,
    }
}
