ghost use Rattle.std.specs.Prelude.{◌≡◌, map, option_map};
ghost use Rattle.packet_paths.specs.Hosts.{host_path};
ghost use Rattle.packet_paths.specs.Neighbors.{after_row};
ghost use Rattle.packet_paths.specs.Sends.{address_and_card, failure_after, first_source};
ghost use Rattle.packet_paths.specs.Sends.{packet_path, path_at, path_sending, path_socket};
ghost use Rattle.packet_paths.specs.Sends.{path_source, path_source_place, source_at};
ghost use Rattle.packet_paths.specs.Sends.{source_place, source_socket, with_path};

use crate::hosts::{packet_place, path_place};
use crate::night_socket::NightSocket;
use crate::path::{Path, sending_of};
use arrayvec::ArrayVec;
use link_notices::{CardAddress, MOST_SOURCES, NetworkLook, Sending, SourceState};
use network_tables::{CardName, Neighbor, is_multicast};
use std::io::ErrorKind;
use targets::{Address, MOST_TARGETS};

/// Addresses that packets come from, each once.
pub type Sources = ArrayVec<Source, MOST_SOURCES>;

/// The paths to the hosts that packets go to, each once.
pub type Paths = ArrayVec<Path, MOST_TARGETS>;

/// How packets leave this machine.
#[derive(Clone, Copy, Debug)]
pub struct Leaving {
    /// The address that they all come from, where a card is named; else the system's route to each
    /// host gives it.
    pub source: Option<[u8; 4]>,

    /// The route to a host may lead by another card.
    pub is_any_route: bool,

    /// So many routers take a packet to a multicast group on.
    pub ttl: u8,

    /// A packet that would have to wait is lost.
    pub never_waits: bool,
}

/// An address of this machine that packets come from, and its card.
#[derive(Clone, Copy, Debug, Default)]
pub struct Source {
    pub address: [u8; 4],
    pub card: CardName,
    pub state: SourceState,
    /// The number of the card that a socket is tied to, for hosts by the route to which packets may
    /// not leave by another card.
    pub tied: Option<u32>,
}

impl Source {
    /// It and its card.
    pub fn card_address(&self) -> CardAddress
        ensures { result ≡ address_and_card self.now }
    {
        CardAddress {
            address: self.address,
            card: self.card,
        }
    }
}

/// How a packet is handed to the system: by which socket, and whether.
#[derive(Clone, Copy, Debug)]
pub struct PacketOffer {
    pub socket: NightSocket,
    pub sending: Sending,
}

/// By which addresses and paths the packets of a night leave this machine. The system holds its
/// sockets: for each address one that is bound to it, so that its multicast leaves by the card of
/// that and by no other.
#[derive(Debug, Drop)]
pub struct NightPaths {
    pub leaving: Leaving,
    pub sources: Sources,
    pub paths: Paths,
    /// Where the last packet that was lost went to, and the reason.
    pub failure: Option<(Address, ErrorKind)>,
}

impl NightPaths {
    /// What is known of the addresses and the paths, as the last look found them.
    pub fn latest_look(&self) -> NetworkLook
        ensures sources { result.sources.items
            ≡ map (λ source. source.state) self.now.sources.items }
        ensures paths { result.paths.items ≡ map host_path self.now.paths.items }
    {
        let mut found = NetworkLook::default();
        for source in self.sources.as_slice() {
            found.sources.push(source.state);
        }
        for path in self.paths.as_slice() {
            found.paths.push(path.host_path());
        }
        found
    }

    /// The path of a packet to a host, which may be the group of a universe; `None` where it has
    /// none.
    pub fn packet_path(&self, host: [u8; 4]) -> Option<Path>
        ensures { result ≡ packet_path self.now host }
    {
        let paths = self.paths.as_slice();
        path_at(paths, packet_place(paths, host))
    }

    /// Puts a path in the place of that to the same host.
    pub fn set_path(&mut self, path: Path)
        ensures path { self.new.paths.items ≡ with_path self.old.paths.items path }
        ensures same { self.new ≡ record self.old { paths = self.new.paths } }
    {
        let Some(place) = path_place(self.paths.as_slice(), path.host) else {
            return;
        };
        if let Some(slot) = self.paths.get_mut(place) {
            *slot = path;
        }
    }

    /// Decides how a packet to a host is handed to the system that has this path, if it has one: it
    /// is not offered to another card than that of its source, unless any will do; and what a card
    /// without a link takes is lost all the same.
    pub fn offer_by(&self, path: Option<Path>, host: [u8; 4]) -> PacketOffer
        ensures socket { result.socket ≡ path_socket self.now path host }
        ensures sending { result.sending ≡ path_sending self.now path }
    {
        let place = path_source_place(&path);
        let source = source_at(self.sources.as_slice(), place);
        let state = state_of(&source);
        PacketOffer {
            socket: source_socket(place, &source, host),
            sending: sending_of(path, state, self.leaving.is_any_route),
        }
    }

    /// Takes up the system's answer to a packet: where the last one that was lost went to, and why,
    /// is known.
    pub fn take_answer(&mut self, to: Address, answer: Result<(), ErrorKind>)
        ensures { self.new
            ≡ record self.old { failure = failure_after self.old.failure to answer } }
    {
        if let Err(kind) = answer {
            self.failure = Some((to, kind));
        }
    }
}

/// The place of the source of an address, if it is one.
pub fn source_place(sources: &[Source], address: [u8; 4]) -> Option<usize>
    ensures { result ≡ source_place sources.now address }
{
    sources.iter().position(|source| source.address == address)
}

/// The source at a place, if there is one.
pub fn source_at(sources: &[Source], place: Option<usize>) -> Option<Source>
    ensures { result ≡ source_at sources.now place }
{
    sources.get(place?).copied()
}

/// From where the packets of a path come, if it has a source.
pub fn path_source(sources: &[Source], path: &Path) -> Option<CardAddress>
    ensures { result ≡ path_source sources.now path.now }
{
    match sources.get(path.source?) {
        Some(source) => Some(source.card_address()),
        None => None,
    }
}

/// From where a new path is looked along: one to a multicast group is not.
pub fn first_source(sources: &[Source], path: &Path) -> Option<CardAddress>
    ensures { result ≡ first_source sources.now path.now }
{
    if is_multicast(path.host) {
        return None;
    }
    path_source(sources, path)
}

/// Shows each path a row of the table of neighbors.
pub fn show_row(paths: &mut [Path], row: &Neighbor)
    ensures { paths.new ≡ map (after_row row.now) paths.old }
{
    for path in paths.iter_mut() {
        path.take_row(row);
    }
}

fn path_at(paths: &[Path], place: Option<usize>) -> Option<Path>
    ensures { result ≡ path_at paths.now place }
{
    paths.get(place?).copied()
}

fn path_source_place(path: &Option<Path>) -> Option<usize>
    ensures { result ≡ path_source_place path.now }
{
    match path {
        Some(path) => path.source,
        None => None,
    }
}

fn state_of(source: &Option<Source>) -> Option<SourceState>
    ensures { result ≡ option_map (λ source. source.state) source.now }
{
    match source {
        Some(source) => Some(source.state),
        None => None,
    }
}

fn source_socket(place: Option<usize>, source: &Option<Source>, host: [u8; 4]) -> NightSocket
    ensures { result ≡ source_socket place source.now host }
{
    match (place, source) {
        (Some(place), Some(source)) if source.tied.is_some() && !is_multicast(host) => {
            NightSocket::Tied(place)
        }
        (Some(place), Some(_)) => NightSocket::Bound(place),
        _ => NightSocket::Unbound,
    }
}
