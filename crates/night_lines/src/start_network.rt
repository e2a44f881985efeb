ghost use Rattle.std.specs.Prelude.{◌≡◌, ◌++◌, false, filter_map, map};
ghost use Rattle.std.specs.List.{list_any};
ghost use Rattle.std.specs.Option.{option_to_list};
ghost use Rattle.network_tables.specs.Groups.{is_multicast};
ghost use Rattle.night_lines.specs.Lines.{lines_of};
ghost use Rattle.night_lines.specs.StartNetworks as spec;

use crate::lines::Lines;
use crate::night_source::{NightSource, NightSources};
use crate::other_cards::other_cards_line;
use crate::sources::{OriginLine, no_route_line, origin_line};
use arrayvec::ArrayVec;
use link_notices::MOST_SOURCES;
use network_tables::{Cards, is_multicast};
use packet_paths::Path;

/// By which cards and routes the packets of a night leave this machine, as it was found at the
/// start.
#[derive(Clone, Copy)]
pub struct StartNetwork<'a> {
    pub sources: &'a NightSources,
    /// The ways to the hosts that packets go to.
    pub paths: &'a [Path],
    /// The cards of this machine; none are needed where [`are_cards_told`] does not hold.
    pub cards: &'a Cards,
    /// The card to send by was named.
    pub is_named: bool,
}

/// The host whose route is told of the source at a place: the first that packets go to from there.
pub fn first_host(paths: &[Path], place: usize) -> Option<[u8; 4]>
    ensures { result ≡ spec.first_host paths.now place }
{
    for path in paths {
        if leaves_from(path, place) {
            return Some(path.host);
        }
    }
    None
}

fn leaves_from(path: &Path, place: usize) -> bool
    ensures { result ≡ spec.leaves_from place path.now }
{
    match path.source {
        Some(source) => source == place,
        None => false,
    }
}

/// Whether it is told which other cards there are: where no card was named, and packets go to a
/// multicast group, for which the system chooses the card.
pub fn are_cards_told(paths: &[Path], is_named: bool) -> bool
    ensures { result ≡ spec.are_cards_told paths.now is_named }
{
    !is_named && any_multicast(paths)
}

fn any_multicast(paths: &[Path]) -> bool
    ensures { result ≡ list_any (λ path. is_multicast path.host) paths.now }
{
    paths.iter().any(|path| is_multicast(path.host))
}

// By which cards and routes packets leave, and which other cards there are.
pub(crate) fn push_network(lines: &mut Lines, network: &StartNetwork<'_>)
    ensures told { lines.new.is_full ≡ false → lines.old.is_full ≡ false }
    ensures lines { lines.new.is_full ≡ false
        → lines_of lines.new ≡ lines_of lines.old ++ spec.network_lines network.now }
{
    push_sources(lines, network.sources.as_slice(), network.is_named);
    push_other_cards(lines, network);
    push_missing_routes(lines, network.paths);
}

fn push_sources(lines: &mut Lines, sources: &[NightSource], is_named: bool)
    ensures told { lines.new.is_full ≡ false → lines.old.is_full ≡ false }
    ensures lines { lines.new.is_full ≡ false
        → lines_of lines.new ≡ lines_of lines.old ++ map (spec.origin_told is_named) sources.now }
{
    for source in sources {
        lines.push(origin_told(source, is_named).as_str().as_bytes());
    }
}

fn origin_told(source: &NightSource, is_named: bool) -> OriginLine
    ensures { result.bytes ≡ spec.origin_told is_named source.now }
{
    if is_named {
        origin_line(&source.origin(), None)
    } else {
        origin_line(&source.origin(), source.route)
    }
}

fn push_other_cards(lines: &mut Lines, network: &StartNetwork<'_>)
    ensures told { lines.new.is_full ≡ false → lines.old.is_full ≡ false }
    ensures lines { lines.new.is_full ≡ false
        → lines_of lines.new ≡ lines_of lines.old ++ spec.card_lines network.now }
{
    if !are_cards_told(network.paths, network.is_named) {
        return;
    }
    let addresses = addresses(network.sources);
    if let Some(line) = other_cards_line(network.cards, addresses.as_slice()) {
        lines.push(line.as_str().as_bytes());
    }
}

fn addresses(sources: &NightSources) -> ArrayVec<[u8; 4], MOST_SOURCES>
    ensures { result.items ≡ map (λ source. source.address) sources.now.items }
{
    let mut addresses = ArrayVec::new();
    for source in sources.as_slice() {
        addresses.push(source.address);
    }
    addresses
}

fn push_missing_routes(lines: &mut Lines, paths: &[Path])
    ensures told { lines.new.is_full ≡ false → lines.old.is_full ≡ false }
    ensures lines { lines.new.is_full ≡ false
        → lines_of lines.new ≡ lines_of lines.old ++ filter_map spec.no_route_told paths.now }
{
    for path in paths {
        push_missing_route(lines, path);
    }
}

fn push_missing_route(lines: &mut Lines, path: &Path)
    ensures told { lines.new.is_full ≡ false → lines.old.is_full ≡ false }
    ensures line { lines.new.is_full ≡ false
        → lines_of lines.new ≡ lines_of lines.old ++ option_to_list (spec.no_route_told path.now) }
{
    if path.is_without_route() {
        lines.push(no_route_line(path.host).as_str().as_bytes());
    }
}
