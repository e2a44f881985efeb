ghost use Rattle.std.specs.Prelude.{◌≡◌};
ghost use Rattle.packet_paths.specs.Hosts.{host_to_route};

use crate::path::Path;
use link_notices::LinkNotice;

/// The host whose route is told with a notice: that of the way that the notice is of, where there
/// was no route so far, and now there is one.
pub fn host_to_route(notice: &LinkNotice, paths: &[Path]) -> Option<[u8; 4]>
    ensures { result ≡ host_to_route paths.now notice.now }
{
    match *notice {
        LinkNotice::Path { place, notice } if notice.is_first_route() => {
            Some(paths.get(place)?.host)
        }
        _ => None,
    }
}
