ghost use Rattle.std.specs.Prelude.{◌≡◌, ◌≤◌, Some, length, option_map};
ghost use Rattle.std.specs.List.{list_all};
ghost use Rattle.network_tables.specs.Best.{better};
ghost use Rattle.std.specs.Char.{is_ascii_graphic};
ghost use Rattle.ascii_text.specs.Forms.{is_run};
ghost use Rattle.network_tables.specs.Fields.{field, hex_number};
ghost use Rattle.network_tables.specs.Holders.{is_at_card};
ghost use Rattle.network_tables.specs.Routes.{card_name, leads_to, name_seen, route_of, route_seen};
ghost use Rattle.network_tables.specs.Routes.{address_number, entry_of, width_of};

use crate::fields::{field, hex_number};
use arrayvec::ArrayString;
use std::str;

// The marks of a route: there is a gateway, and what goes there is refused.
const HAS_GATEWAY: u32 = 0x2;

const REFUSES: u32 = 0x200;

/// The name of a network card.
pub type CardName = ArrayString<15>;

/// A route of the system: its network and mask are numbers, whose highest byte is the first of an
/// address.
#[derive(Clone, Copy, Debug, Default)]
pub struct Route {
    /// The card that it leads by.
    pub card: CardName,
    pub network: u32,
    pub mask: u32,
    /// Who takes its packets on, unless they reach their host at once.
    pub gateway: Option<[u8; 4]>,
}

impl Route {
    /// Reads a line of `/proc/net/route`: the card, the network, the gateway, the marks, three
    /// numbers and the mask. A line that is none of a route, as the heading, and a route that
    /// refuses its packets give `None`.
    pub fn read(line: &[u8]) -> Option<Route>
        ensures { option_map route_seen result ≡ route_of line.now }
    {
        let card = card_name(field(line, 0))?;
        let network = hex_number(field(line, 1))?;
        let gateway = hex_number(field(line, 2))?;
        let marks = hex_number(field(line, 3))?;
        let mask = hex_number(field(line, 7))?;
        if marks & REFUSES != 0 {
            return None;
        }
        let has_gateway = marks & HAS_GATEWAY != 0;
        Some(Route {
            card,
            network: address_number(network),
            mask: address_number(mask),
            gateway: if has_gateway {
                Some(gateway.to_le_bytes())
            } else {
                None
            },
        })
    }

    /// Whether it leads to this host: they agree in the bits that it looks at.
    pub fn leads_to(&self, host: [u8; 4]) -> bool
        ensures { result ≡ leads_to host (route_seen self.now) }
    {
        u32::from_be_bytes(host) & self.mask == self.network
    }

    /// Whether it leads to a network at which its card is: without a gateway, and not to
    /// everywhere.
    pub fn is_at_card(&self) -> bool
        ensures { result ≡ is_at_card (route_seen self.now) }
    {
        self.gateway.is_none() && self.mask != 0
    }

    /// How many bits of an address it looks at.
    pub fn width(&self) -> u32
        ensures { result ≡ width_of (route_seen self.now) }
    {
        self.mask.count_ones()
    }
}

pub(crate) fn card_name(field: &[u8]) -> Option<CardName>
    ensures { option_map name_seen result ≡ card_name field.now }
{
    if !is_name(field) {
        return None;
    }
    match str::from_utf8(field) {
        Ok(name) => short_name(name),
        Err(_) => None,
    }
}

fn short_name(name: &str) -> Option<CardName>
    requires { length name.now ≤ 15 }
    ensures { option_map name_seen result ≡ Some name.now }
{
    match CardName::from(name) {
        Ok(name) => Some(name),
        Err(_) => None,
    }
}

fn is_name(field: &[u8]) -> bool
    ensures { result ≡ is_run is_ascii_graphic 1 15 field.now }
{
    !field.is_empty() && field.len() <= 15 && is_seen(field)
}

fn is_seen(field: &[u8]) -> bool
    ensures { result ≡ list_all is_ascii_graphic field.now }
{
    field.iter().all(|byte| byte.is_ascii_graphic())
}

// The system writes an address as the number of its bytes, the first one lowest.
fn address_number(number: u32) -> u32
    ensures { result ≡ address_number number }
{
    u32::from_be_bytes(number.to_le_bytes())
}

/// The better of two ways to a host: the route, where it leads there and looks at more bits than
/// the best before it. So of several that look at most bits the first is kept.
pub fn better(best: Option<Route>, route: &Route, host: [u8; 4]) -> Option<Route>
    ensures { option_map route_seen result
        ≡ better host (option_map route_seen best) (route_seen route.now) }
{
    if !route.leads_to(host) {
        return best;
    }
    match &best {
        Some(before) if before.width() >= route.width() => best,
        _ => Some(*route),
    }
}
