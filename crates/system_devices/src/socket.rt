ghost use Rattle.std.specs.Prelude.{◌≤◌, [], IfOk};

use arrayvec::ArrayString;
use devices::{Datagrams, LinkFault};
use job_devices::JobSource;
use packet_paths::{OpenFault, socket_address};
use std::fmt::Write;
use std::io::ErrorKind;
use std::net::{Net, SocketAddr, UdpSocket};

/// Why a socket cannot be had at an address of this machine: the system's reason.
#[derive(Debug, Drop)]
pub struct SocketFault {
    pub address: AddressText,
    pub kind: ErrorKind,
}

impl SocketFault {
    /// Why none can be had at an address and a port.
    fn at(address: SocketAddr, kind: ErrorKind) -> SocketFault {
        let address = text_of(address);
        SocketFault { address, kind }
    }

    /// Why none can be had at an address, whichever port the system chooses.
    pub fn of_night(fault: OpenFault) -> SocketFault {
        SocketFault::at(socket_address(fault.address, 0), fault.kind)
    }
}

/// A UDP socket that receives. It does not tell what it gave.
#[derive(Drop)]
pub struct ReceivingSocket {
    inner: UdpSocket,
    failure: Option<ErrorKind>,
}

impl ReceivingSocket {
    /// A socket at an IPv4 address and a port of this machine.
    pub fn bind(rt: &impl Net, at: ([u8; 4], u16)) -> Result<Self, SocketFault> {
        let (host, port) = at;
        let address = socket_address(host, port);
        match UdpSocket::bind(rt, address) {
            Ok(inner) => Ok(ReceivingSocket {
                inner,
                failure: None,
            }),
            Err(error) => Err(SocketFault::at(address, error.kind())),
        }
    }

    /// Where it receives, with the port that the system chose where none was asked for.
    pub fn address(&self) -> AddressText {
        match self.inner.local_addr() {
            Ok(address) => text_of(address),
            Err(_) => AddressText::new(),
        }
    }
}

impl Datagrams for ReceivingSocket {
    fn receive(&mut self, buf: &mut [u8; 1500]) -> Result<usize, LinkFault> {
        match receive_datagram(&self.inner, buf) {
            Ok(count) => Ok(count),
            Err(kind) => {
                self.failure = Some(kind);
                Err(LinkFault)
            }
        }
    }
}

impl JobSource for ReceivingSocket {
    ghost reason = { λ socket. socket.failure };

    fn failure(&self) -> Option<ErrorKind> {
        self.failure
    }
}

// Receives a datagram. A call that a signal interrupts is made again: nothing was received.
// `recv` would not take an empty datagram off the socket.
fn receive_datagram(socket: &UdpSocket, buf: &mut [u8; 1500]) -> Result<usize, ErrorKind>
    ensures { IfOk result (λ count. count ≤ 1500) }
{
    for _ in 0..u64::MAX {
        match socket.recv_from(buf) {
            Ok((count, _)) => return Ok(count),
            Err(error) if error.kind() == ErrorKind::Interrupted => {}
            Err(error) => return Err(error.kind()),
        }
    }
    Err(ErrorKind::Interrupted)
}

/// Sends a datagram whole. A call that a signal interrupts is made again: nothing was sent.
///
/// # Errors
///
/// The system's reason; `WriteZero` where only a part was sent.
pub fn send_datagram(
    socket: &UdpSocket,
    bytes: &[u8],
    address: SocketAddr,
) -> Result<(), ErrorKind> {
    for _ in 0..u64::MAX {
        match socket.send_to(bytes, address) {
            Ok(count) if count == bytes.len() => return Ok(()),
            Ok(_) => return Err(ErrorKind::WriteZero),
            Err(error) if error.kind() == ErrorKind::Interrupted => {}
            Err(error) => return Err(error.kind()),
        }
    }
    Err(ErrorKind::Interrupted)
}

/// An address and its port: there is room for four numbers of three digits and one of five.
pub type AddressText = ArrayString<21>;

/// An address as text.
pub fn text_of(address: SocketAddr) -> AddressText {
    let mut text = AddressText::new();
    let _ = write!(text, "{address}");
    text
}
