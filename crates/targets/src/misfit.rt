use crate::Address;
use thiserror::Error;

/// What is wrong with the targets of a show.
#[derive(Clone, Copy, Debug, PartialEq, Eq, Error)]
pub enum TargetMisfit {
    /// A target is named for this universe, and the show does not have it.
    #[error("the show has no universe {universe}")]
    NoUniverse { universe: u16 },

    /// The show has this universe, and its packets go nowhere.
    #[error("universe {universe} has no target")]
    NoTarget { universe: u16 },

    /// The packets of this universe go to the address twice.
    #[error("universe {universe} has a target twice")]
    Twice { universe: u16, address: Address },
}
