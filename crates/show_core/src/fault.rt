ghost use Rattle.std.specs.Prelude.{◌≡◌};
ghost use Rattle.show_core.specs.declared.fault.BuildFault.TheVariants.{Memory};

use std::alloc::AllocError;
use thiserror::Error;

/// Why a builder of a show refuses.
#[derive(Clone, Copy, Debug, PartialEq, Eq, Error)]
pub enum BuildFault {
    /// A number outside its range, or one cue too many.
    #[error("a number outside its range, or one cue too many")]
    Limit,
    /// An allocation failed.
    #[error("out of memory")]
    Memory,
}

impl From<AllocError> for BuildFault {
    ghost from_gives = { λ _ e. e ≡ Memory };

    fn from(_e: AllocError) -> BuildFault {
        BuildFault::Memory
    }
}
