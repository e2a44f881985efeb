ghost use Rattle.std.specs.Prelude.{◌≡◌};
ghost use Rattle.link_notices.specs.Offers.{offer_of};

use crate::{PathState, SourceState};
use std::io::ErrorKind;

/// How a packet to a host is offered to the system.
#[derive(Clone, Copy, Debug, PartialEq, Eq)]
pub enum Sending {
    /// By the socket that is bound to no address.
    Unbound,
    /// By the socket of its source.
    Bound,
    /// By the socket of its source; it is lost all the same, for this reason.
    BoundAndLost(ErrorKind),
    /// It is not offered; it is lost, for this reason.
    Lost(ErrorKind),
}

impl Sending {
    /// Decides how a packet is offered to the system: by how its host is reached, how the address
    /// is that it is sent from, if it has one, and whether any card will do.
    pub fn choose(path: &PathState, source: Option<SourceState>, is_any_route: bool) -> Sending
        ensures { result ≡ offer_of path.now source is_any_route }
    {
        let Some(source) = source else {
            return Sending::Unbound;
        };
        // Without a route the system would ask who has the address at the card's network.
        if !is_any_route && !matches!(path, PathState::Leads) {
            return Sending::Lost(ErrorKind::NetworkUnreachable);
        }
        match source {
            SourceState::Sends => Sending::Bound,
            SourceState::NoLink => Sending::BoundAndLost(ErrorKind::NetworkDown),
            SourceState::Down => Sending::Lost(ErrorKind::NetworkDown),
            SourceState::Lost => Sending::Lost(ErrorKind::AddrNotAvailable),
        }
    }
}
