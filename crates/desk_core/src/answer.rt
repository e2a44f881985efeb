ghost use Rattle.std.specs.Prelude.{◌≡◌};
ghost use Rattle.desk_core.specs.Refusals.{refused_move, refused_master};

use master_core::NoMaster;
use playback_core::NoMove;
use thiserror::Error;

/// What a tick is.
#[derive(Clone, Copy, Debug, PartialEq, Eq)]
pub enum Ticked {
    /// A tick before any End: the frames are what the show means.
    Live,
    /// The first, second or third tick after End: the frames are dark, and the streams end (E1.31,
    /// Options: Stream_Terminated).
    Ending(u8),
}

/// Why a call is refused: the first of these that applies. A refused call changes nothing.
#[derive(Clone, Copy, Debug, PartialEq, Eq, Error)]
pub enum Refused {
    /// The moment is before that of the last accepted call.
    #[error("the moment is before that of the last call")]
    Backwards,
    /// The moment is 2^48 milliseconds or more.
    #[error("the moment is 2^48 milliseconds or more")]
    MomentTooLarge,
    /// A command after End, or a tick after the third since End.
    #[error("the show has ended")]
    Ended,
    /// A tick less than 23 milliseconds after the last accepted one.
    #[error("less than 23 milliseconds after the last tick")]
    TooSoon,
    /// Go, and no cue is above the current one.
    #[error("go: no cue is above the current one")]
    AtEnd,
    /// Back, and the current cue is the first, or there is none.
    #[error("back: no cue is below the current one")]
    AtStart,
    /// Goto, and the show has no such cue.
    #[error("goto: no such cue")]
    NoCue,
    /// The show has no such submaster.
    #[error("no such submaster")]
    NoSub,
    /// The show has no such group.
    #[error("no such group")]
    NoGroup,
}

impl From<NoMove> for Refused {
    ghost from_gives = { λ e r. r ≡ refused_move e };

    fn from(e: NoMove) -> Refused {
        match e {
            NoMove::AtEnd => Refused::AtEnd,
            NoMove::AtStart => Refused::AtStart,
            NoMove::NoCue => Refused::NoCue,
        }
    }
}

impl From<NoMaster> for Refused {
    ghost from_gives = { λ e r. r ≡ refused_master e };

    fn from(e: NoMaster) -> Refused {
        match e {
            NoMaster::NoSub => Refused::NoSub,
            NoMaster::NoGroup => Refused::NoGroup,
        }
    }
}
