ghost use Rattle.std.specs.Prelude.{◌≡◌, option_map};
ghost use Rattle.night_lines.specs.NoticeLines as spec;

use crate::night_source::NightSource;
use crate::path_notices::{Way, path_notice_line};
use crate::source_notices::{NoticeLine, source_notice_line};
use link_notices::{CardAddress, LinkNotice};
use network_tables::Route;
use packet_paths::Path;

/// The addresses that the packets of a night come from, and the ways to their hosts. Notices name
/// both by their places.
#[derive(Clone, Copy)]
pub struct NoticeNetwork<'a> {
    pub sources: &'a [NightSource],
    pub paths: &'a [Path],
}

impl NoticeNetwork<'_> {
    fn way(&self, path: &Path) -> Way
        ensures { result ≡ spec.way_of self.now.sources.now path.now }
    {
        Way {
            host: path.host,
            state: path.state,
            source: self.origin_at(path.source),
            neighbor: path.neighbor,
        }
    }

    fn origin_at(&self, place: Option<usize>) -> Option<CardAddress>
        ensures { result ≡ spec.origin_at self.now.sources.now place }
    {
        let source = self.sources.get(place?)?;
        Some(source.origin())
    }
}

/// The line of a notice, at this moment of the night, in milliseconds, with the route that leads now
/// to the host that it is of, where that is told. `None` of one that is of no place of the network.
pub fn notice_line(
    moment: u64,
    notice: &LinkNotice,
    route: Option<Route>,
    network: &NoticeNetwork<'_>,
) -> Option<NoticeLine>
    ensures { option_map spec.notice_seen result
        ≡ spec.notice_line moment network.now route notice.now }
{
    match *notice {
        LinkNotice::Source { place, notice } => {
            let source = network.sources.get(place)?;
            Some(source_notice_line(moment, &source.origin(), notice))
        }
        LinkNotice::Path { place, notice } => {
            let path = network.paths.get(place)?;
            Some(path_notice_line(moment, &network.way(path), notice, route))
        }
    }
}
