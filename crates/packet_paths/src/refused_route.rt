ghost use Rattle.std.specs.Prelude.{◌≡◌, codes, option_map};
ghost use Rattle.packet_paths.specs.RefusedRoutes.{card_told, path_refusal};
ghost use Rattle.packet_paths.specs.RefusedRoutes.{refusal_seen, refused_path, refused_route};
ghost use Rattle.link_notices.specs.Paths.{refused_card};
ghost use Rattle.std.specs.Option.{is_some};

use crate::night_paths::{NightPaths, Source, source_at};
use crate::open_fault::OpenFault;
use crate::path::Path;
use network_tables::CardName;

// In the place of a card's name.
const NO_NAME: &str = "the card";

/// A route that refuses a night, for which a card is named.
#[derive(Clone, Copy, Debug)]
pub struct RefusedRoute {
    /// It leads to this host.
    pub host: [u8; 4],
    /// The card that packets are to leave by.
    pub card: CardName,
    /// The card that it leads by.
    pub other: CardName,
}

/// Why a night does not have its network.
#[derive(Clone, Copy, Debug)]
pub enum NetworkRefusal {
    /// A socket cannot be had.
    Socket(OpenFault),
    /// A route leads by another card than the one that is named.
    Route(RefusedRoute),
}

impl NightPaths {
    /// The first route that refuses the night.
    pub fn refused_route(&self) -> Option<RefusedRoute>
        ensures { option_map refusal_seen result ≡ refused_route self.now }
    {
        let is_named = self.leaving.source.is_some();
        let path = refused_path(is_named, self.paths.as_slice())?;
        self.path_refusal(is_named, &path)
    }

    fn path_refusal(&self, is_named: bool, path: &Path) -> Option<RefusedRoute>
        ensures { option_map refusal_seen result
            ≡ path_refusal self.now.sources.items is_named path.now }
    {
        let other = path.state.refused_card(is_named)?;
        let card = card_told(&source_at(self.sources.as_slice(), path.source));
        let host = path.host;
        Some(RefusedRoute { host, card, other })
    }
}

fn refused_path(is_named: bool, paths: &[Path]) -> Option<Path>
    ensures { result ≡ refused_path is_named paths.now }
{
    paths
        .iter()
        .find(|path| is_refused(is_named, path))
        .copied()
}

fn is_refused(is_named: bool, path: &Path) -> bool
    ensures { result ≡ is_some (refused_card path.now.state is_named) }
{
    path.state.refused_card(is_named).is_some()
}

fn card_told(source: &Option<Source>) -> CardName
    ensures { result.bytes ≡ card_told source.now }
{
    match source {
        Some(source) => source.card,
        None => no_name(),
    }
}

fn no_name() -> CardName
    ensures { result.bytes ≡ codes "the card" }
{
    let mut name = CardName::new();
    name.push_str(NO_NAME);
    name
}
