ghost use Rattle.std.specs.Prelude.{◌≡◌};
ghost use Rattle.cmd_play.specs.declared.fault.PlayFault.TheVariants.{Device};

use devices::LinkFault;

/// Why the lines of a play are not carried out to their end.
#[derive(Clone, Copy, Debug, PartialEq, Eq)]
pub enum PlayFault {
    /// The line of this number is malformed, too long, or one too many.
    Line(u32),
    /// The input or the output failed.
    Device,
}

impl From<LinkFault> for PlayFault {
    ghost from_gives = { λ _ e. e ≡ Device };

    fn from(_fault: LinkFault) -> PlayFault {
        PlayFault::Device
    }
}
