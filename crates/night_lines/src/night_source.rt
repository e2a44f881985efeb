ghost use Rattle.std.specs.Prelude.{◌≡◌};
ghost use Rattle.night_lines.specs.Sources.{origin_of};

use arrayvec::ArrayVec;
use link_notices::{CardAddress, MOST_SOURCES};
use network_tables::{CardName, Route};

/// An address of this machine that the packets of a night come from.
#[derive(Clone, Copy, Debug, Default)]
pub struct NightSource {
    pub address: [u8; 4],
    pub card: CardName,
    /// The route to the first host that packets go to from there, where one was looked for.
    pub route: Option<Route>,
}

/// All of them.
pub type NightSources = ArrayVec<NightSource, MOST_SOURCES>;

impl NightSource {
    pub(crate) fn origin(&self) -> CardAddress
        ensures { result ≡ origin_of self.now }
    {
        CardAddress {
            address: self.address,
            card: self.card,
        }
    }
}
