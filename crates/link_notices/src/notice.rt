ghost use Rattle.std.specs.Prelude.{◌≡◌};
ghost use Rattle.link_notices.specs.Told.{is_first_route};

use crate::{SourceState, Trouble};
use arrayvec::ArrayVec;

/// How an address of this machine was told to be, and how it is.
#[derive(Clone, Copy, Debug, PartialEq, Eq)]
pub struct SourceNotice {
    pub was: SourceState,
    pub is: SourceState,
}

/// What was told to be wrong with the way to a host, and what is.
#[derive(Clone, Copy, Debug, PartialEq, Eq)]
pub struct PathNotice {
    pub was: Trouble,
    pub is: Trouble,
}

impl PathNotice {
    /// Whether there is a route to the host, and there was none before.
    pub fn is_first_route(self) -> bool
        ensures { result ≡ is_first_route self.was self.is }
    {
        self.was == Trouble::NoRouteYet && self.is == Trouble::None
    }
}

/// What is to be told of a network.
#[derive(Clone, Copy, Debug, PartialEq, Eq)]
pub enum LinkNotice {
    /// Of the address at this place among those that packets come from.
    Source { place: usize, notice: SourceNotice },
    /// Of the way to the host at this place.
    Path { place: usize, notice: PathNotice },
}

/// What is to be told after a look, the first first: there is room for each address and each way.
pub type LinkNotices = ArrayVec<LinkNotice, 72>;

// What fills the room that is left.
impl Default for LinkNotice {
    fn default() -> Self {
        LinkNotice::Source {
            place: 0,
            notice: SourceNotice {
                was: SourceState::Sends,
                is: SourceState::Sends,
            },
        }
    }
}
