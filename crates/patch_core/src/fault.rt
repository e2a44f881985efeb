ghost use Rattle.std.specs.Prelude.{◌≡◌};
ghost use Rattle.patch_core.specs.declared.fault.RigFault.TheVariants.{Memory};

use std::alloc::AllocError;
use thiserror::Error;

/// Why there is no rig.
#[derive(Clone, Copy, Debug, PartialEq, Eq, Error)]
pub enum RigFault {
    /// A universe would have no number from 1 to 63999.
    #[error("a universe would have no number from 1 to 63999")]
    Universe,
    /// An allocation failed.
    #[error("out of memory")]
    Memory,
}

impl From<AllocError> for RigFault {
    ghost from_gives = { λ _ e. e ≡ Memory };

    fn from(_e: AllocError) -> RigFault {
        RigFault::Memory
    }
}
