ghost use Rattle.std.specs.Prelude.{◌≡◌};
ghost use Rattle.link_notices.specs.Looks.{has_link, path_look};

use crate::path::{PathState, trouble_of};
use crate::source::SourceState;
use crate::watch::PathLook;
use arrayvec::ArrayVec;
use targets::MOST_TARGETS;

/// The most addresses of this machine that a night sends from.
pub const MOST_SOURCES: usize = 8;

/// How the way to a host was found.
#[derive(Clone, Copy, Debug, Default)]
pub struct HostPath {
    /// The place of the address that its packets come from; none where there was no route so far.
    pub source: Option<usize>,
    pub state: PathState,
    /// At so many looks one behind the other its first taker did not answer.
    pub silence: u8,
}

/// What a look at the network of a night found.
#[derive(Debug, Default, Drop)]
pub struct NetworkLook {
    /// How each address is that packets come from.
    pub sources: ArrayVec<SourceState, MOST_SOURCES>,
    /// How the way to each host is.
    pub paths: ArrayVec<HostPath, MOST_TARGETS>,
}

impl NetworkLook {
    // Of the way to a host nothing is told while its card has no link.
    pub(crate) fn has_link(&self, path: &HostPath) -> bool
        ensures { result ≡ has_link self.now.sources.items path.now.source }
    {
        let Some(place) = path.source else {
            return true;
        };
        match self.sources.as_slice().get(place) {
            Some(source) => *source == SourceState::Sends,
            None => true,
        }
    }

    pub(crate) fn path_look(&self, path: &HostPath) -> PathLook
        ensures { result ≡ path_look self.now.sources.items path.now }
    {
        PathLook {
            has_link: self.has_link(path),
            trouble: trouble_of(&path.state, path.source.is_some(), path.silence),
        }
    }
}
