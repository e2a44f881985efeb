ghost use Rattle.std.specs.Prelude.{◌≡◌};
ghost use Rattle.link_notices.specs.Paths.{leads_by, path_state, refused_card, trouble_of};

use network_tables::{CardName, SILENCE};

/// An address of this machine, and its card.
#[derive(Clone, Copy, Debug)]
pub struct CardAddress {
    pub address: [u8; 4],
    pub card: CardName,
}

impl CardAddress {
    // Whether it is that address, or one of the same card.
    fn leads_by(&self, source: &CardAddress) -> bool
        ensures { result ≡ leads_by source.now self.now }
    {
        let address = source.address;
        let other = self.address;
        other == address || self.card.as_str() == source.card.as_str()
    }
}

/// How a host is reached.
#[derive(Clone, Copy, Debug, Default)]
pub enum PathState {
    /// By the card of its source, or by any.
    Leads,
    /// The system's route leads by this other card.
    Elsewhere(CardName),
    /// There is no route.
    #[default]
    Nowhere,
}

impl PathState {
    /// How a host is reached from a source: by the address, and its card, that the system's route
    /// to the host gives, where there is one, and by whether any card will do.
    pub fn of_route(
        route: Option<CardAddress>,
        source: CardAddress,
        is_any_route: bool,
    ) -> PathState
        ensures { result ≡ path_state route source is_any_route }
    {
        match route {
            None => PathState::Nowhere,
            Some(route) if is_any_route || route.leads_by(&source) => PathState::Leads,
            Some(route) => PathState::Elsewhere(route.card),
        }
    }

    /// The card by which the route leads, where that refuses a night: packets are to leave by
    /// another one, which was named.
    pub fn refused_card(&self, is_named: bool) -> Option<CardName>
        ensures { result ≡ refused_card self.now is_named }
    {
        match self {
            PathState::Elsewhere(card) if is_named => Some(*card),
            _ => None,
        }
    }
}

/// What is wrong with the way to a host.
#[derive(Clone, Copy, Debug, Default, PartialEq, Eq)]
pub enum Trouble {
    #[default]
    None,
    /// There was no route so far.
    NoRouteYet,
    /// There is no route any more.
    NoRoute,
    /// The route leads by another card.
    OtherCard,
    /// Nobody answers there.
    NoAnswer,
}

/// What is wrong with the way to a host: by how the host is reached, whether it has an address to
/// be sent from, and at how many looks one behind the other its first taker did not answer.
pub fn trouble_of(state: &PathState, has_source: bool, silence: u8) -> Trouble
    ensures { result ≡ trouble_of state.now has_source silence }
{
    match state {
        PathState::Nowhere if !has_source => Trouble::NoRouteYet,
        PathState::Nowhere => Trouble::NoRoute,
        PathState::Elsewhere(_) => Trouble::OtherCard,
        PathState::Leads if silence >= SILENCE => Trouble::NoAnswer,
        PathState::Leads => Trouble::None,
    }
}
