use network_tables::Cards;
use night_lines::{FoundNetwork, NightSources, are_cards_told, host_told, with_route};
use system_devices::{Network, read_cards, route_to};

/// Looks up what is told at the start of a night of its network: the route to the first host behind
/// each source, unless a card was named; and the cards, where it is told which others there are.
pub fn find_network(rt: &HostRuntime, network: &Network, is_named: bool) -> FoundNetwork {
    let paths = network.paths();
    let mut sources = NightSources::new();
    for (place, source) in network.sources().iter().enumerate() {
        let route = match host_told(paths, place, is_named) {
            Some(host) => route_to(rt, host),
            None => None,
        };
        let _ = sources.try_push(with_route(source, route));
    }
    let mut cards = Cards::new();
    if are_cards_told(paths, is_named) {
        cards = read_cards(rt);
    }
    FoundNetwork { sources, cards }
}
