ghost use Rattle.std.specs.Prelude.{◌≡◌, ◌≤◌, length, take};
ghost use Rattle.night_lines.specs.FoundNetworks as spec;

use crate::night_source::{NightSource, NightSources};
use crate::start_network::first_host;
use link_notices::MOST_SOURCES;
use network_tables::{Cards, Route};
use packet_paths::{Path, Source};

/// What was found at the start of the network of a night.
#[derive(Drop)]
pub struct FoundNetwork {
    /// The addresses that packets come from, with the routes that are told of them.
    pub sources: NightSources,
    /// The cards of this machine, where it is told which others there are.
    pub cards: Cards,
}

/// The addresses that packets come from: the first eight. No route is told of them.
pub fn night_sources(sources: &[Source]) -> NightSources
    ensures { result.items ≡ spec.without_routes sources.now }
{
    let first = first_sources(sources);
    let mut night = NightSources::new();
    for source in first {
        night.push(with_route(source, None));
    }
    night
}

fn first_sources<'a>(sources: &'a [Source]) -> &'a [Source]
    ensures value { result.now ≡ take 8 sources.now }
    ensures room { length result.now ≤ 8 }
{
    &sources[..sources.len().min(MOST_SOURCES)]
}

/// A source, with the route that is told of it.
pub fn with_route(source: &Source, route: Option<Route>) -> NightSource
    ensures { result ≡ spec.with_route source.now route }
{
    NightSource {
        address: source.address,
        card: source.card,
        route,
    }
}

/// The host whose route is told of the source at a place: the first that packets go to from there;
/// where a card was named, none is told.
pub fn host_told(paths: &[Path], place: usize, is_named: bool) -> Option<[u8; 4]>
    ensures { result ≡ spec.host_told paths.now place is_named }
{
    if is_named {
        return None;
    }
    first_host(paths, place)
}
