ghost use Rattle.std.specs.Prelude.{◌≡◌};

use thiserror::Error;

/// A packet that was accepted.
#[derive(Clone, Copy, Debug, PartialEq, Eq)]
pub struct Taken {
    /// The packet's number (E1.31-2018, sequence number).
    pub sequence: u8,
    /// The source ends its stream (E1.31-2018, options: Stream_Terminated).
    pub terminated: bool,
}

/// Why a datagram was ignored. Of several reasons the first of these is given.
#[derive(Clone, Copy, Debug, PartialEq, Eq, Error)]
pub enum Ignored {
    /// It came before the last accepted packet.
    #[error("it came before the last accepted packet")]
    Backwards,
    /// It holds no data packet.
    #[error("it holds no data packet: {0}")]
    Unreadable(sacn_packet::Unreadable),
    /// Its packet is of another universe.
    #[error("it is of another universe")]
    OtherUniverse,
    /// Its levels are not for the stage (E1.31-2018, options: Preview_Data).
    #[error("its levels are not for the stage")]
    Preview,
    /// Its START code is not 0, and it is no termination (E1.31-2018, START code).
    #[error("its START code is not 0")]
    AltStart,
    /// Its number is that of the source's last accepted packet, or up to 19 behind (E1.31-2018,
    /// sequence numbering).
    #[error("its number is not ahead of the last one")]
    OutOfSequence,
    /// Its source is new, and there are as many sources as the receiver has room for (E1.31-2018,
    /// requirements for sources exceeded resolution).
    #[error("there are as many sources as there is room for")]
    SourcesFull,
}

impl From<sacn_packet::Unreadable> for Ignored {
    ghost use Rattle.sacn_receiver.specs.declared.answer.Ignored.TheVariants as reason;

    ghost from_gives = { λ fault e. e ≡ reason.Unreadable fault };

    fn from(fault: sacn_packet::Unreadable) -> Ignored {
        Ignored::Unreadable(fault)
    }
}
