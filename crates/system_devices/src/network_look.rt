use crate::cards::card_to;
use crate::path_looks::look_along;
use crate::routes::source_to;
use crate::sockets::Sockets;
use crate::system_lines::open_lines;
use link_notices::SourceState;
use network_tables::next_neighbor;
use packet_paths::{
    NightPaths, OpenFault, Path, Paths, Source, Sources, first_source, path_place, show_row,
    source_address, source_at, source_place,
};
use targets::Targets;

const NEIGHBORS: &str = "/proc/net/arp";

/// The paths of a night to these targets: one for each host, in their order; with a source, and its
/// sockets, for each address of this machine that packets come from.
///
/// # Errors
///
/// Why a socket cannot be had.
pub fn reach_targets(
    rt: &HostRuntime,
    sockets: &mut Sockets,
    targets: &Targets,
) -> Result<NightPaths, OpenFault> {
    let mut sources = Sources::new();
    let mut paths = Paths::new();
    for target in targets.as_slice() {
        let host = target.address.host;
        if path_place(paths.as_slice(), host).is_none() {
            let _ = paths.try_push(reach(rt, sockets, &mut sources, host)?);
        }
    }
    Ok(NightPaths {
        leaving: sockets.leaving(),
        sources,
        paths,
        failure: None,
    })
}

/// Looks at the sources, by these at the paths, and by these at the table of neighbors.
pub fn look_at_network(rt: &HostRuntime, sockets: &mut Sockets, night: &mut NightPaths) {
    let mut sources = look_at_sources(rt, sockets, night.sources.as_slice());
    let mut paths = look_at_paths(rt, sockets, &mut sources, night.paths.as_slice());
    show_neighbors(rt, paths.as_mut_slice());
    night.sources = sources;
    night.paths = paths;
}

fn look_at_sources(rt: &HostRuntime, sockets: &mut Sockets, sources: &[Source]) -> Sources {
    let mut looked = Sources::new();
    for (place, source) in sources.iter().enumerate() {
        let _ = looked.try_push(sockets.looked_source(rt, place, source));
    }
    looked
}

fn look_at_paths(
    rt: &HostRuntime,
    sockets: &mut Sockets,
    sources: &mut Sources,
    paths: &[Path],
) -> Paths {
    let mut looked = Paths::new();
    for path in paths {
        let _ = looked.try_push(look_at_path(rt, sockets, sources, path));
    }
    looked
}

// A path without a source is reached for the first time; a fault leaves the path that was there.
fn look_at_path(
    rt: &HostRuntime,
    sockets: &mut Sockets,
    sources: &mut Sources,
    path: &Path,
) -> Path {
    let Some(source) = source_at(sources.as_slice(), path.source) else {
        return match reach(rt, sockets, sources, path.host) {
            Ok(found) => found,
            Err(_) => *path,
        };
    };
    let mut path = *path;
    if path.take_link(source.state == SourceState::Sends) {
        let route = source_to(rt, path.host);
        let is_any_route = sockets.leaving().is_any_route;
        look_along(rt, &mut path, source.card_address(), route, is_any_route);
    }
    path
}

// How a host is reached for the first time.
fn reach(
    rt: &HostRuntime,
    sockets: &mut Sockets,
    sources: &mut Sources,
    host: [u8; 4],
) -> Result<Path, OpenFault> {
    let leaving = sockets.leaving();
    let route = source_to(rt, host);
    let Some(address) = source_address(leaving.source, route) else {
        return Ok(Path::new(host, None, false));
    };
    let place = source_for(rt, sockets, sources, address, host)?;
    let mut path = Path::new(host, place, true);
    if let Some(source) = first_source(sources.as_slice(), &path) {
        look_along(rt, &mut path, source, route, leaving.is_any_route);
    }
    Ok(path)
}

// The place of the source of this address, for a host; `None` where there are too many.
fn source_for(
    rt: &HostRuntime,
    sockets: &mut Sockets,
    sources: &mut Sources,
    address: [u8; 4],
    host: [u8; 4],
) -> Result<Option<usize>, OpenFault> {
    if let Some(place) = source_place(sources.as_slice(), address) {
        return Ok(Some(place));
    }
    let card = card_to(rt, address, host);
    let Some(place) = sockets.open_source(rt, address)? else {
        return Ok(None);
    };
    let mut source = Source {
        address,
        card,
        state: SourceState::Sends,
        tied: None,
    };
    sockets.tie(rt, place, &mut source);
    let _ = sources.try_push(source);
    Ok(Some(place))
}

// Shows each path each row of the table of neighbors.
fn show_neighbors(rt: &HostRuntime, paths: &mut [Path]) {
    let mut table = open_lines(rt, NEIGHBORS);
    for _ in 0..u64::MAX {
        let Some(row) = next_neighbor(&mut table) else {
            return;
        };
        show_row(paths, &row);
    }
}
