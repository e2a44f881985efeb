use crate::cards::{card_index, card_state};
use crate::routes::is_of_this_machine;
use crate::socket::send_datagram;
use crate::tied_socket::open_tied;
use arrayvec::ArrayVec;
use link_notices::{MOST_SOURCES, source_state};
use packet_paths::{
    Leaving, NightSocket, OpenFault, Source, destination, is_tie_due, socket_address,
};
use std::io::{self, ErrorKind};
use std::net::UdpSocket;
use targets::Address;

const ANY: [u8; 4] = [0, 0, 0, 0];

/// The sockets of a source: one that is bound to its address, and one that is tied to its card,
/// where there is one.
#[derive(Default, Drop)]
pub struct SourceSockets {
    bound: Option<UdpSocket>,
    tied: Option<UdpSocket>,
}

/// The sockets of a night.
#[derive(Drop)]
pub struct Sockets {
    leaving: Leaving,
    // Bound to no address.
    unbound: UdpSocket,
    // Of each source, at its place.
    sources: ArrayVec<SourceSockets, MOST_SOURCES>,
}

impl Sockets {
    /// The first socket, for a night.
    ///
    /// # Errors
    ///
    /// The system's reason.
    pub fn open(rt: &HostRuntime, leaving: Leaving) -> Result<Sockets, OpenFault> {
        let unbound = socket_at(rt, ANY, leaving)?;
        Ok(Sockets {
            leaving,
            unbound,
            sources: ArrayVec::new(),
        })
    }

    /// How packets leave.
    pub fn leaving(&self) -> Leaving {
        self.leaving
    }

    /// Opens a socket at an address, for the source at the next place; `None` where there is no
    /// place for one more.
    ///
    /// # Errors
    ///
    /// The system's reason.
    pub fn open_source(
        &mut self,
        rt: &HostRuntime,
        address: [u8; 4],
    ) -> Result<Option<usize>, OpenFault> {
        let source = SourceSockets {
            bound: Some(socket_at(rt, address, self.leaving)?),
            tied: None,
        };
        let place = self.sources.len();
        match self.sources.try_push(source) {
            Ok(()) => Ok(Some(place)),
            Err(_) => Ok(None),
        }
    }

    /// The source at a place, as it is now: a socket is tied to its card where that is due.
    pub fn looked_source(&mut self, rt: &HostRuntime, place: usize, source: &Source) -> Source {
        let card = card_state(rt, source.card.as_str());
        let is_own = is_of_this_machine(rt, source.address);
        let mut source = *source;
        source.state = source_state(card, is_own);
        self.tie(rt, place, &mut source);
        source
    }

    /// Ties a socket to the card that is there now, for the source at a place, where that is due.
    pub fn tie(&mut self, rt: &HostRuntime, place: usize, source: &mut Source) {
        let index = card_index(rt, source.card.as_str());
        if is_tie_due(index, source.tied, self.leaving.is_any_route) {
            source.tied = self.tied_to(rt, place, source.address, index);
        }
    }

    // Ties a socket at an address to the card of this number, in the place of the one before: the
    // number of the card; `None` where the system ties none.
    fn tied_to(
        &mut self,
        rt: &HostRuntime,
        place: usize,
        address: [u8; 4],
        index: Option<u32>,
    ) -> Option<u32> {
        let source = self.sources.as_mut_slice().get_mut(place)?;
        source.tied = None;
        source.tied = open_tied(rt, address, index?, self.leaving.never_waits);
        source.tied.as_ref().and(index)
    }

    /// Sends a datagram whole by one of them.
    ///
    /// # Errors
    ///
    /// The system's reason; `NotFound` where the socket is not there.
    pub fn send(&self, socket: NightSocket, to: Address, bytes: &[u8]) -> Result<(), ErrorKind> {
        let by = self.get(socket).ok_or(ErrorKind::NotFound)?;
        send_datagram(by, bytes, destination(socket, to))
    }

    fn get(&self, socket: NightSocket) -> Option<&UdpSocket> {
        let sources = self.sources.as_slice();
        match socket {
            NightSocket::Unbound => Some(&self.unbound),
            NightSocket::Bound(place) => sources.get(place)?.bound.as_ref(),
            NightSocket::Tied(place) => sources.get(place)?.tied.as_ref(),
        }
    }
}

// A socket at an address, by which packets leave so.
fn socket_at(rt: &HostRuntime, address: [u8; 4], leaving: Leaving) -> Result<UdpSocket, OpenFault> {
    match socket_bound(rt, address, leaving) {
        Ok(socket) => Ok(socket),
        Err(error) => Err(OpenFault {
            address,
            kind: error.kind(),
        }),
    }
}

fn socket_bound(rt: &HostRuntime, address: [u8; 4], leaving: Leaving) -> io::Result<UdpSocket> {
    let socket = UdpSocket::bind(rt, socket_address(address, 0))?;
    socket.set_nonblocking(leaving.never_waits)?;
    socket.set_multicast_ttl_v4(leaving.ttl.into())?;
    Ok(socket)
}
