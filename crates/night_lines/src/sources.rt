ghost use Rattle.std.specs.Prelude.{◌≡◌, option_map};
ghost use Rattle.network_tables.specs.Routes.{route_seen};
ghost use Rattle.night_lines.specs.Routes as spec;

use arrayvec::ArrayString;
use itoa::Buffer;
use link_notices::CardAddress;
use network_tables::{Route, host_text};

/// The line of an address that packets come from: a card, a route and its width have room.
pub type OriginLine = ArrayString<80>;

/// The line of a host to which no route leads.
pub type NoRouteLine = ArrayString<72>;

/// The line of an address that packets come from and its card, and of the route by which a host is
/// reached from there, where it leads by that card.
pub fn origin_line(source: &CardAddress, route: Option<Route>) -> OriginLine
    ensures { result.bytes ≡ spec.origin_line source.now (option_map route_seen route) }
{
    let mut line = OriginLine::new();
    line.push_str(origin_text(source).as_str());
    line.push_str(route_text(source, route).as_str());
    line.push_str("\n");
    line
}

pub(crate) fn origin_text(source: &CardAddress) -> ArrayString<38>
    ensures { result.bytes ≡ spec.origin_text source.now }
{
    let mut text = ArrayString::new();
    text.push_str("from ");
    text.push_str(host_text(source.address).as_str());
    text.push_str(" (");
    text.push_str(source.card.as_str());
    text.push_str(")");
    text
}

pub(crate) fn route_text(source: &CardAddress, route: Option<Route>) -> ArrayString<41>
    ensures { result.bytes ≡ spec.route_text source.now (option_map route_seen route) }
{
    match route {
        Some(route) if route.card.as_str() == source.card.as_str() => destination_text(&route),
        _ => ArrayString::new(),
    }
}

fn destination_text(route: &Route) -> ArrayString<41>
    ensures { result.bytes ≡ spec.destination_text (route_seen route.now) }
{
    let mut text = ArrayString::new();
    if route.width() == 0 {
        text.push_str(", the default route");
    } else {
        text.push_str(", the route to ");
        text.push_str(host_text(route.network.to_be_bytes()).as_str());
        text.push_str("/");
        text.push_str(Buffer::new().format(route.width()));
    }
    text
}

/// The line of a host to which no route leads.
pub fn no_route_line(host: [u8; 4]) -> NoRouteLine
    ensures { result.bytes ≡ spec.no_route_line host }
{
    let mut line = NoRouteLine::new();
    line.push_str(no_route_text(host).as_str());
    line.push_str("\n");
    line
}

pub(crate) fn no_route_text(host: [u8; 4]) -> ArrayString<71>
    ensures { result.bytes ≡ spec.no_route_text host }
{
    let mut text = ArrayString::new();
    text.push_str("no route to ");
    text.push_str(host_text(host).as_str());
    text.push_str(": nodes get nothing until there is one");
    text
}
