ghost use Rattle.std.specs.Prelude.{◌≡◌, ◌≤◌, length, option_map};
ghost use Rattle.network_tables.specs.Routes.{route_seen};
ghost use Rattle.night_lines.specs.Notices as spec;
ghost use Rattle.night_lines.specs.Routes as routes;

use crate::source_notices::{NoticeLine, line_at};
use crate::sources::{no_route_text, origin_text, route_text};
use arrayvec::ArrayString;
use link_notices::{CardAddress, PathNotice, PathState, Trouble};
use network_tables::{Route, host_text};

type WayText = ArrayString<110>;

/// The way to a host that packets go to.
#[derive(Clone, Copy, Debug)]
pub struct Way {
    pub host: [u8; 4],
    /// How the host is reached.
    pub state: PathState,
    /// The address that its packets come from, and its card.
    pub source: Option<CardAddress>,
    /// Who takes its packets first: the host itself, or a gateway.
    pub neighbor: Option<[u8; 4]>,
}

/// The line of a notice about the way to a host, at a moment in milliseconds. The route is the one
/// that leads there now; it is told where there was none.
pub fn path_notice_line(
    moment: u64,
    way: &Way,
    notice: PathNotice,
    route: Option<Route>,
) -> NoticeLine
    ensures { result.bytes
        ≡ spec.path_notice_line moment way.now notice (option_map route_seen route) }
{
    line_at(moment, trouble_text(way, notice, route).as_str())
}

fn trouble_text(way: &Way, notice: PathNotice, route: Option<Route>) -> WayText
    ensures { result.bytes
        ≡ spec.trouble_text way.now (option_map route_seen route) notice.was notice.is }
{
    match notice.is {
        Trouble::None => mended_from(way, notice.was, route),
        Trouble::NoRouteYet | Trouble::NoRoute => no_route(way.host),
        Trouble::OtherCard => other_card_text(way.host, &way.state),
        Trouble::NoAnswer => silent_text(way.host, way.neighbor),
    }
}

fn no_route(host: [u8; 4]) -> WayText
    ensures { result.bytes ≡ routes.no_route_text host }
{
    let mut text = WayText::new();
    text.push_str(no_route_text(host).as_str());
    text
}

fn mended_from(way: &Way, was: Trouble, route: Option<Route>) -> WayText
    ensures { result.bytes
        ≡ spec.mended_from way.now (option_map route_seen route) was way.now.source }
{
    match &way.source {
        Some(source) => mended_text(way, was, route, source),
        None => WayText::new(),
    }
}

fn mended_text(way: &Way, was: Trouble, route: Option<Route>, source: &CardAddress) -> WayText
    ensures { result.bytes
        ≡ spec.mended_text way.now (option_map route_seen route) was source.now }
{
    match was {
        Trouble::NoRouteYet => new_route_text(source, route),
        Trouble::NoAnswer => answering_text(way.neighbor.unwrap_or(way.host)),
        _ => leading_text(way.host, source.card.as_str()),
    }
}

fn new_route_text(source: &CardAddress, route: Option<Route>) -> WayText
    ensures { result.bytes ≡ spec.new_route_text source.now (option_map route_seen route) }
{
    let mut text = WayText::new();
    text.push_str(origin_text(source).as_str());
    text.push_str(route_text(source, route).as_str());
    text
}

fn answering_text(neighbor: [u8; 4]) -> WayText
    ensures { result.bytes ≡ spec.answering_text neighbor }
{
    let mut text = WayText::new();
    text.push_str(host_text(neighbor).as_str());
    text.push_str(" answers");
    text
}

// By which card the route to a host leads.
fn leading_text(host: [u8; 4], card: &str) -> WayText
    requires { length card.now ≤ 15 }
    ensures text { result.bytes ≡ spec.leading_text host card.now }
    ensures room { length result.bytes ≤ 53 }
{
    let mut text = WayText::new();
    text.push_str("the route to ");
    text.push_str(host_text(host).as_str());
    text.push_str(" leads by ");
    text.push_str(card);
    text
}

fn other_card_text(host: [u8; 4], state: &PathState) -> WayText
    ensures { result.bytes ≡ spec.other_card_text host state.now }
{
    match state {
        PathState::Elsewhere(card) => elsewhere_text(host, card.as_str()),
        _ => WayText::new(),
    }
}

fn elsewhere_text(host: [u8; 4], card: &str) -> WayText
    requires { length card.now ≤ 15 }
    ensures { result.bytes ≡ spec.elsewhere_text host card.now }
{
    let mut text = leading_text(host, card);
    text.push_str(": nodes get nothing; check ip route get ");
    text.push_str(host_text(host).as_str());
    text
}

fn silent_text(host: [u8; 4], neighbor: Option<[u8; 4]>) -> WayText
    ensures { result.bytes ≡ spec.silent_text host neighbor }
{
    match neighbor {
        Some(gateway) if gateway != host => gateway_silent_text(gateway, host),
        _ => host_silent_text(host),
    }
}

fn host_silent_text(host: [u8; 4]) -> WayText
    ensures { result.bytes ≡ spec.host_silent_text host }
{
    let mut text = WayText::new();
    text.push_str("no answer from ");
    text.push_str(host_text(host).as_str());
    text.push_str(": nothing has that address; check the node and --to");
    text
}

fn gateway_silent_text(gateway: [u8; 4], host: [u8; 4]) -> WayText
    ensures { result.bytes ≡ spec.gateway_silent_text gateway host }
{
    let mut text = WayText::new();
    text.push_str("no answer from ");
    text.push_str(host_text(gateway).as_str());
    text.push_str(": nothing has that address; check the gateway to ");
    text.push_str(host_text(host).as_str());
    text
}
