ghost use Rattle.std.specs.Prelude.{◌≡◌};
ghost use Rattle.packet_paths.specs.Hosts.{is_universe_group, packet_place};
ghost use Rattle.packet_paths.specs.Hosts.{path_place};

use crate::path::Path;

// The host that stands for the multicast groups of all universes.
const EACH_GROUP: [u8; 4] = [239, 255, 0, 0];

fn is_universe_group(host: [u8; 4]) -> bool
    ensures { result ≡ is_universe_group host }
{
    host[0] == 239 && host[1] == 255
}

/// The place of the path to a host.
pub fn path_place(paths: &[Path], host: [u8; 4]) -> Option<usize>
    ensures { result ≡ path_place paths.now host }
{
    paths.iter().position(|path| path.host == host)
}

/// The place of the path of a packet to a host, which may be the group of a universe.
pub fn packet_place(paths: &[Path], host: [u8; 4]) -> Option<usize>
    ensures { result ≡ packet_place paths.now host }
{
    match path_place(paths, host) {
        Some(place) => Some(place),
        None if is_universe_group(host) => path_place(paths, EACH_GROUP),
        None => None,
    }
}
