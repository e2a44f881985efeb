ghost use Rattle.std.specs.Prelude.{◌≡◌};
ghost use Rattle.cmd_listen.specs.declared.fault.WatchFault.TheVariants.{Device, Memory};

use devices::LinkFault;
use std::alloc::AllocError;

/// Why a watch does not go on to the end of its input.
#[derive(Clone, Copy, Debug, PartialEq, Eq)]
pub enum WatchFault {
    /// The line of this number is malformed, too long, or one too many.
    Line(u32),
    /// The input or the output failed.
    Device,
    /// An allocation failed.
    Memory,
}

impl From<LinkFault> for WatchFault {
    ghost from_gives = { λ _ e. e ≡ Device };

    fn from(_fault: LinkFault) -> WatchFault {
        WatchFault::Device
    }
}

impl From<AllocError> for WatchFault {
    ghost from_gives = { λ _ e. e ≡ Memory };

    fn from(_error: AllocError) -> WatchFault {
        WatchFault::Memory
    }
}
