ghost use Rattle.std.specs.Prelude.{◌≡◌};
ghost use Rattle.cmd_faults.specs.declared.fault.RunFault.TheVariants.{Device, Memory};
ghost use Rattle.cmd_faults.specs.Runs.{of_setup, of_show};

use devices::LinkFault;
use rehearsal_faults::Fault;
use show_reader::ShowFault;
use std::alloc::AllocError;
use thiserror::Error;

/// Why a run does not end well.
#[derive(Clone, Copy, Debug, PartialEq, Eq, Error)]
pub enum RunFault {
    /// The show text is refused. Out of memory while it is read is `Memory`.
    #[error("the show is refused: {0}")]
    Show(ShowFault),
    /// The show has no cue of the number asked for.
    #[error("no such cue")]
    NoCue,
    /// A universe of the show would have no number from 1 to 63999.
    #[error("a universe has no number")]
    Base,
    /// The input line of this number, from 1, is malformed or too long, or is one line too many.
    #[error("line {0} is refused")]
    Line(u32),
    /// The script has more than 16,777,216 bytes.
    #[error("the script is too long")]
    Script,
    /// A script's consoles and receivers make no rehearsal. Out of memory while it is rehearsed is
    /// `Memory`.
    #[error("no rehearsal begins: {0}")]
    Setup(Fault),
    /// A file, a socket, an input or an output failed.
    #[error("a device failed")]
    Device,
    /// The run was whole, but so many packets were lost: their sends failed.
    #[error("{0} packets were lost")]
    Lost(u64),
    /// An allocation failed.
    #[error("out of memory")]
    Memory,
}

impl From<ShowFault> for RunFault {
    ghost from_gives = { λ fault e. e ≡ of_show fault };

    fn from(fault: ShowFault) -> RunFault {
        match fault {
            ShowFault::Memory => RunFault::Memory,
            _ => RunFault::Show(fault),
        }
    }
}

impl From<Fault> for RunFault {
    ghost from_gives = { λ fault e. e ≡ of_setup fault };

    fn from(fault: Fault) -> RunFault {
        match fault {
            Fault::Memory => RunFault::Memory,
            _ => RunFault::Setup(fault),
        }
    }
}

impl From<LinkFault> for RunFault {
    ghost from_gives = { λ _ e. e ≡ Device };

    fn from(_fault: LinkFault) -> RunFault {
        RunFault::Device
    }
}

impl From<AllocError> for RunFault {
    ghost from_gives = { λ _ e. e ≡ Memory };

    fn from(_error: AllocError) -> RunFault {
        RunFault::Memory
    }
}
