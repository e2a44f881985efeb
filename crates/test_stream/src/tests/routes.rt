use link_notices::CardAddress;
use network_tables::CardName;
use packet_paths::Path;
use std::process::Abort;

const HOST: [u8; 4] = [10, 0, 0, 9];

const OWN: [u8; 4] = [10, 0, 0, 2];

const OTHER: [u8; 4] = [10, 1, 0, 2];

// Where a path leads.
#[derive(Clone, Copy)]
enum Way {
    ByItsCard,
    ByOther(&'static str),
    Nowhere,
}

// The address that the route gives, with its card, if there is one; whether that card was known; and
// where the path leads then.
type Row = (Option<CardAddress>, bool, Way);

fn name(text: &str) -> CardName {
    CardName::from(text).unwrap_or_default()
}

fn by(address: [u8; 4], card: &str) -> CardAddress {
    CardAddress {
        address,
        card: name(card),
    }
}

fn own() -> CardAddress {
    by(OWN, "eth0")
}

fn leads(path: &Path, way: Way) -> bool {
    let other = path.state.refused_card(true);
    match (way, other) {
        (Way::ByOther(card), Some(other)) => other.as_str() == card,
        (Way::ByItsCard, None) => !path.is_without_route(),
        (Way::Nowhere, None) => path.is_without_route(),
        _ => false,
    }
}

// Whether a route that is found is as the row has it.
fn holds(path: &mut Path, row: &Row) -> bool {
    let (route, is_known, way) = row;
    let Some(asked) = route else {
        path.take_route(None, own(), false);
        return leads(path, *way);
    };
    let address = asked.address;
    let known = path.known_card(address, &own());
    path.take_route(Some(known.unwrap_or(*asked)), own(), false);
    known.is_some() == *is_known && leads(path, *way)
}

#[test]
fn a_route_leads_by_its_card(rt: HostRuntime) {
    let rows = &[
        (Some(by(OWN, "eth0")), true, Way::ByItsCard),
        (Some(by(OTHER, "wlan0")), false, Way::ByOther("wlan0")),
        // The card of an address that is known is not asked for again.
        (Some(by(OTHER, "eth0")), true, Way::ByOther("wlan0")),
        (None, false, Way::Nowhere),
        (Some(by(OWN, "eth0")), true, Way::ByItsCard),
        // Another address of the same card.
        (Some(by([10, 0, 0, 3], "eth0")), false, Way::ByItsCard),
    ];
    let mut path = Path::new(HOST, Some(0), true);
    for row in rows {
        assert!(rt; holds(&mut path, row));
    }
}

#[test]
fn a_look_counts_for_less_than_a_millisecond(rt: HostRuntime) {
    let mut path = Path::new(HOST, Some(0), true);
    assert!(rt; !path.is_fresh(Some(0)));
    path.look_time = Some(1_000_000);
    assert!(rt; path.is_fresh(Some(1_999_999)) && !path.is_fresh(Some(2_000_000)));
    assert!(rt; !path.is_fresh(None));
}

#[test]
fn multicast_and_any_route_need_no_look(rt: HostRuntime) {
    let path = Path::new(HOST, Some(0), true);
    let group = Path::new([239, 255, 0, 1], Some(0), true);
    assert!(rt; path.look_source(Some(own()), false).is_some());
    assert!(rt; path.look_source(Some(own()), true).is_none());
    assert!(rt; group.look_source(Some(own()), false).is_none());
}
