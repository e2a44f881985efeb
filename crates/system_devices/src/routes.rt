use crate::system_lines::{SystemFile, open_lines};
use byte_reading::ShortLines;
use network_tables::{Route, best_route};
use packet_paths::socket_address;
use std::net::{SocketAddr, UdpSocket};

const ROUTES: &str = "/proc/net/route";

// A datagram to this port is thrown away. None is sent.
const PORT: u16 = 9;

/// The lines of the system's main table of routes.
pub fn open_routes(rt: &HostRuntime) -> ShortLines<SystemFile> {
    open_lines(rt, ROUTES)
}

/// The route of the main table that leads to a host: of several the first that looks at most bits.
pub fn route_to(rt: &HostRuntime, host: [u8; 4]) -> Option<Route> {
    best_route(&mut open_routes(rt), host)
}

/// The address that a packet to this host would come from: the one that the system's route gives.
/// No packet is sent.
pub fn source_to(rt: &HostRuntime, host: [u8; 4]) -> Option<[u8; 4]> {
    let socket = UdpSocket::bind(rt, socket_address([0, 0, 0, 0], 0)).ok()?;
    socket.connect(socket_address(host, PORT)).ok()?;
    match socket.local_addr() {
        Ok(SocketAddr::V4(address)) => Some(address.ip().octets()),
        _ => None,
    }
}

/// Whether this machine has the address, by a card that is up.
pub fn is_of_this_machine(rt: &HostRuntime, address: [u8; 4]) -> bool {
    UdpSocket::bind(rt, socket_address(address, 0)).is_ok()
}
