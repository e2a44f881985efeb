ghost use Rattle.std.specs.Prelude.{◌≡◌, ◌&&◌, not};
ghost use Rattle.link_notices.specs.Offers.{offer_of};
ghost use Rattle.network_tables.specs.Groups.{is_multicast};
ghost use Rattle.packet_paths.specs.Hosts.{host_path, is_nowhere, new_path};
ghost use Rattle.packet_paths.specs.Hosts.{state_of_path};
ghost use Rattle.packet_paths.specs.Neighbors.{after_row};
ghost use Rattle.packet_paths.specs.Routes.{is_fresh, known_card, look_source, with_route};
ghost use Rattle.packet_paths.specs.Takers.{asks_taker, same_taker, with_taker};

use link_notices::{CardAddress, HostPath, PathState, Sending, SourceState};
use network_tables::{Neighbor, is_multicast, silence_toward};

// A look at the route to a host counts for less than so many nanoseconds: so the packets of a tick
// have one, and not one each.
const FRESH: u64 = 1_000_000;

/// A host that packets go to.
#[derive(Clone, Copy, Debug, Default)]
pub struct Path {
    pub host: [u8; 4],
    /// The place of its source; none where there was no route to it so far.
    pub source: Option<usize>,
    pub state: PathState,
    /// Who takes its packets first, where that is another machine at the card's network: the host
    /// itself, or a gateway.
    pub neighbor: Option<[u8; 4]>,
    /// At so many looks one behind the other it did not answer.
    pub silence: u8,
    /// The card of its source has a link.
    pub has_link: bool,
    /// What the route to it gave at the last look.
    pub route: Option<CardAddress>,
    /// When the route was looked for before a packet, in nanoseconds.
    pub look_time: Option<u64>,
}

impl Path {
    /// The path to a host that was not looked along so far. Its source is none also where there are
    /// too many; it leads where there is an address to send from.
    pub fn new(host: [u8; 4], source: Option<usize>, has_address: bool) -> Path
        ensures { result ≡ new_path host source has_address }
    {
        let state = if has_address {
            PathState::Leads
        } else {
            PathState::Nowhere
        };
        Path {
            host,
            source,
            state,
            neighbor: None,
            silence: 0,
            has_link: true,
            route: None,
            look_time: None,
        }
    }

    /// Whether no route leads to the host.
    pub fn is_without_route(&self) -> bool
        ensures { result ≡ is_nowhere self.now.state }
    {
        matches!(self.state, PathState::Nowhere)
    }

    /// What is known of it.
    pub fn host_path(&self) -> HostPath
        ensures { result ≡ host_path self.now }
    {
        HostPath {
            source: self.source,
            state: self.state,
            silence: self.silence,
        }
    }

    /// Takes up a row of the table of neighbors.
    pub fn take_row(&mut self, row: &Neighbor)
        ensures { self.new ≡ after_row row.now self.old }
    {
        self.silence = row.silence_of(self.neighbor, self.has_link, self.silence);
    }

    /// Takes up whether the card of its source has a link, and returns whether the path is looked
    /// along then: a path without a link is not, nor one to a multicast group.
    pub fn take_link(&mut self, has_link: bool) -> bool
        ensures path { self.new ≡ record self.old { has_link = has_link } }
        ensures looks { result ≡ (has_link && not (is_multicast self.old.host)) }
    {
        self.has_link = has_link;
        has_link && !is_multicast(self.host)
    }

    /// Whether it is to be asked who takes its packets first: where that is not known, or does not
    /// answer.
    pub fn asks_taker(&self) -> bool
        ensures { result ≡ asks_taker self.now }
    {
        self.neighbor.is_none() || self.silence > 0
    }

    /// Takes up who takes its packets first. Another one counts as silent as the one before it.
    pub fn take_taker(&mut self, taker: Option<[u8; 4]>)
        ensures { self.new ≡ with_taker self.old taker }
    {
        if !is_same_taker(self.neighbor, taker) {
            self.silence = silence_toward(taker, self.silence);
        }
        self.neighbor = taker;
    }

    /// An address that the route to the host gives, with its card, where that is known: it is the
    /// source's own, or that of the last look.
    pub fn known_card(&self, address: [u8; 4], source: &CardAddress) -> Option<CardAddress>
        ensures { result ≡ known_card address source.now self.now.route }
    {
        if source.address == address {
            return Some(*source);
        }
        let last = self.route?;
        let known = last.address;
        if known == address { Some(last) } else { None }
    }

    /// Takes up the address that the route to the host gives, and its card, if there is a route:
    /// so the path leads from this source, or does not.
    pub fn take_route(
        &mut self,
        route: Option<CardAddress>,
        source: CardAddress,
        is_any_route: bool,
    )
        ensures { self.new ≡ with_route self.old route source is_any_route }
    {
        self.route = route;
        self.state = PathState::of_route(self.route, source, is_any_route);
    }

    /// The address from which the path is looked along before a packet, where it is. The multicast
    /// of a bound socket needs no look, since it leaves by the card of its address; nor does a
    /// packet for which any route will do, or which has no address to be sent from.
    pub fn look_source(
        &self,
        source: Option<CardAddress>,
        is_any_route: bool,
    ) -> Option<CardAddress>
        ensures { result ≡ look_source self.now.host source is_any_route }
    {
        if is_multicast(self.host) || is_any_route {
            return None;
        }
        source
    }

    /// Whether the last look before a packet counts still at this time, in nanoseconds.
    pub fn is_fresh(&self, now: Option<u64>) -> bool
        ensures { result ≡ is_fresh self.now.look_time now }
    {
        match (self.look_time, now) {
            (Some(look), Some(now)) => now.saturating_sub(look) < FRESH,
            _ => false,
        }
    }
}

fn is_same_taker(left: Option<[u8; 4]>, right: Option<[u8; 4]>) -> bool
    ensures { result ≡ same_taker left right }
{
    match (left, right) {
        (None, None) => true,
        (Some(left), Some(right)) => left == right,
        _ => false,
    }
}

/// How a packet is offered to the system, by its path, if it has one; by how the address is that it
/// is sent from, if it has one; and by whether any card will do.
pub fn sending_of(path: Option<Path>, source: Option<SourceState>, is_any_route: bool) -> Sending
    ensures { result ≡ offer_of (state_of_path path) source is_any_route }
{
    match path {
        Some(path) => Sending::choose(&path.state, source, is_any_route),
        None => Sending::choose(&PathState::Nowhere, source, is_any_route),
    }
}
