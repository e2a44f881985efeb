ghost use Rattle.std.specs.Prelude.{◌≡◌};
ghost use Rattle.std.specs.Net.Addr.{IsV4And, ipv4_octets};
ghost use Rattle.std.specs.Net.Socket.{socket_ip, socket_port};
ghost use Rattle.packet_paths.specs.SocketAddresses.{IsDestination, IsMachineBy, IsMapped};

use crate::night_socket::NightSocket;
use std::net::{IpAddr, Ipv4Addr, Ipv6Addr, SocketAddr, SocketAddrV6};
use targets::Address;

// A datagram to this port is thrown away.
const DISCARD: u16 = 9;

/// An address and a port, as a socket of IPv4 takes them.
pub fn socket_address(host: [u8; 4], port: u16) -> SocketAddr
    ensures host { IsV4And (socket_ip result) (λ ip. ipv4_octets ip ≡ host) }
    ensures port { socket_port result ≡ port }
{
    SocketAddr::new(IpAddr::from(host), port)
}

/// An address of IPv4 and a port, as a socket of IPv6 takes them.
pub fn mapped_address(host: [u8; 4], port: u16) -> SocketAddr
    ensures host { IsMapped host (socket_ip result) }
    ensures port { socket_port result ≡ port }
{
    SocketAddr::new(IpAddr::V6(Ipv4Addr::from(host).to_ipv6_mapped()), port)
}

/// Some machine at the network of the card of this number. No packet goes there.
pub fn machine_by(index: u32) -> SocketAddr
    ensures { IsMachineBy index result }
{
    let neighbor = Ipv6Addr::new(0xfe80, 0, 0, 0, 0, 0, 0, 1);
    SocketAddr::V6(SocketAddrV6::new(neighbor, DISCARD, 0, index))
}

/// Where a packet to an address goes, as one of a night's sockets takes it.
pub fn destination(socket: NightSocket, to: Address) -> SocketAddr
    ensures host { IsDestination socket to.host (socket_ip result) }
    ensures port { socket_port result ≡ to.port }
{
    match socket {
        NightSocket::Tied(_) => mapped_address(to.host, to.port),
        NightSocket::Unbound | NightSocket::Bound(_) => socket_address(to.host, to.port),
    }
}
