use crate::network_look::{look_at_network, reach_targets};
use crate::path_looks::looked_path;
use crate::routes::route_to;
use crate::socket::{AddressText, text_of};
use crate::sockets::Sockets;
use link_notices::{LinkNotice, NetworkLook, Sending};
use network_tables::Route;
use packet_paths::{
    Leaving, NetworkRefusal, NightPaths, Path, Source, host_to_route, path_source, socket_address,
};
use std::io::ErrorKind;
use std::time::Instant;
use targets::{Address, Targets};

/// The network of a night: its paths, and the sockets of the system.
#[derive(Drop)]
pub struct Network {
    night: NightPaths,
    sockets: Sockets,
    // When it was opened, by the machine's clock.
    start: Option<Instant>,
    // When the last packet began, in nanoseconds since then.
    packet_time: Option<u64>,
}

impl Network {
    /// Opens the sockets for these targets.
    ///
    /// # Errors
    ///
    /// The system's reason where one cannot be had; the route that refuses the night.
    pub fn open(
        rt: &HostRuntime,
        targets: &Targets,
        leaving: Leaving,
    ) -> Result<Network, NetworkRefusal> {
        let start = Instant::now(rt).ok();
        let mut sockets = Sockets::open(rt, leaving).map_err(NetworkRefusal::Socket)?;
        let night = reach_targets(rt, &mut sockets, targets).map_err(NetworkRefusal::Socket)?;
        match night.refused_route() {
            None => Ok(Network {
                night,
                sockets,
                start,
                packet_time: None,
            }),
            Some(refused) => Err(NetworkRefusal::Route(refused)),
        }
    }

    /// The addresses that packets come from.
    pub fn sources(&self) -> &[Source] {
        self.night.sources.as_slice()
    }

    /// The hosts that packets go to, each once.
    pub fn paths(&self) -> &[Path] {
        self.night.paths.as_slice()
    }

    /// Where the last packet that was lost went to, and the reason.
    pub fn failure(&self) -> Option<(AddressText, ErrorKind)> {
        let (address, kind) = self.night.failure?;
        Some((text_of(socket_address(address.host, address.port)), kind))
    }

    /// What is known of the addresses and the ways, as the last look found them.
    pub fn latest_look(&self) -> NetworkLook {
        self.night.latest_look()
    }

    /// Looks at the cards, the addresses and the routes, and returns what is known then.
    pub fn look(&mut self, rt: &HostRuntime) -> NetworkLook {
        look_at_network(rt, &mut self.sockets, &mut self.night);
        self.night.latest_look()
    }

    /// The route that is told with a notice, where it is of a host to which there was none before.
    pub fn first_route(&self, rt: &HostRuntime, notice: &LinkNotice) -> Option<Route> {
        route_to(rt, host_to_route(notice, self.paths())?)
    }

    /// Takes the time of a packet: by it the looks before its datagrams are due.
    pub fn begin_packet(&mut self, rt: &HostRuntime) {
        self.packet_time = self.time(rt);
    }

    /// Sends a datagram of the packet that was begun last.
    ///
    /// # Errors
    ///
    /// Why it is lost.
    pub fn send(&mut self, rt: &HostRuntime, to: Address, bytes: &[u8]) -> Result<(), ErrorKind> {
        let path = self.packet_path(rt, to.host);
        let answer = self.offer(path, to, bytes);
        self.night.take_answer(to, answer);
        answer
    }

    // The path of a packet to a host, as a look before it finds that.
    fn packet_path(&mut self, rt: &HostRuntime, host: [u8; 4]) -> Option<Path> {
        if let Some(path) = self.night.packet_path(host) {
            let looked = self.looked_path(rt, path);
            self.night.set_path(looked);
        }
        self.night.packet_path(host)
    }

    fn looked_path(&self, rt: &HostRuntime, path: Path) -> Path {
        let source = path_source(self.sources(), &path);
        let is_any_route = self.night.leaving.is_any_route;
        looked_path(rt, path, source, is_any_route, self.packet_time)
    }

    // What a card without a link takes is lost all the same.
    fn offer(&self, path: Option<Path>, to: Address, bytes: &[u8]) -> Result<(), ErrorKind> {
        let offer = self.night.offer_by(path, to.host);
        match offer.sending {
            Sending::Unbound | Sending::Bound => self.sockets.send(offer.socket, to, bytes),
            Sending::BoundAndLost(kind) => {
                self.sockets.send(offer.socket, to, bytes)?;
                Err(kind)
            }
            Sending::Lost(kind) => Err(kind),
        }
    }

    // The time since it was opened, in nanoseconds.
    fn time(&self, rt: &HostRuntime) -> Option<u64> {
        let passed = Instant::now(rt).ok()?.duration_since(self.start?);
        u64::try_from(passed.as_nanos()).ok()
    }
}
