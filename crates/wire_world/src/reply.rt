use crate::Offers;
use desk_core::{Refused, Ticked};
use sacn_receiver::{Ignored, Taken};
use show_core::Frame;
use thiserror::Error;

/// Why an event was skipped. Of several reasons the first of these is given. A skipped event
/// changes nothing.
#[derive(Clone, Copy, Debug, PartialEq, Eq, Error)]
pub enum Skip {
    /// It is before the last event that was not skipped.
    #[error("it is before the last event that was not skipped")]
    Backwards,
    /// Its moment is 2^48 milliseconds or more.
    #[error("its moment is 2^48 milliseconds or more")]
    TooLarge,
    /// There is no such console.
    #[error("there is no such console")]
    NoConsole,
    /// There is no such receiver.
    #[error("there is no such receiver")]
    NoReceiver,
    /// The console has not sent that packet of that universe yet.
    #[error("the packet was not sent yet")]
    NotSent,
}

/// The reply to an event.
#[derive(Debug, Drop)]
pub enum Reply {
    /// A command was carried out.
    Done,
    /// A command or a tick was refused.
    Refused(Refused),
    /// A tick, and what became of the frames of its console's universes.
    Ticked(Ticked, Offers),
    /// A datagram was accepted.
    Taken(Taken),
    /// A datagram was ignored.
    Ignored(Ignored),
    /// The slots of a receiver, each 0 to 255.
    Shown(Frame),
    /// The event was skipped.
    Skipped(Skip),
}
