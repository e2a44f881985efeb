ghost use Rattle.std.specs.Prelude.{◌≡◌, IfOk};
ghost use Rattle.wire_world.specs.Widened.{occurrence, happenings};

use crate::{Event, What};
use desk_core::Instruction;
use std::alloc::{AllocError, Global};

/// An event of a script: what an [`Event`] is, and an instruction that is no command.
#[derive(Clone, Copy, Debug, PartialEq, Eq)]
pub struct Happening {
    /// When it happens, in milliseconds.
    pub moment: u64,
    /// What happens.
    pub what: Occurrence,
}

/// What happens. Consoles and receivers are numbered from 0.
#[derive(Clone, Copy, Debug, PartialEq, Eq)]
pub enum Occurrence {
    /// An instruction for a console.
    Order(u16, Instruction),
    /// A tick of a console.
    Tick(u16),
    /// A packet that a console has sent reaches a receiver.
    Deliver {
        receiver: u16,
        console: u16,
        /// The number of its universe.
        universe: u16,
        /// Its place in the stream of that universe, counted from 0.
        k: u64,
    },
    /// A datagram from anywhere reaches a receiver.
    Stray {
        receiver: u16,
        /// The place of its first byte in the bytes of all strays.
        from: u32,
        /// The place behind its last byte.
        to: u32,
    },
    /// The slots of a receiver are asked for.
    Show(u16),
}

// These events as events of a script.
pub(crate) fn widened(alloc: Global, events: &[Event]) -> Result<Vec<Happening>, AllocError>
    ensures { IfOk result (λ widened. widened.items ≡ happenings events.now) }
{
    let mut happenings = Vec::with_capacity(alloc, events.len())?;
    for event in events {
        happenings.push(Happening {
            moment: event.moment,
            what: widen(event.what),
        })?;
    }
    Ok(happenings)
}

fn widen(what: What) -> Occurrence
    ensures { result ≡ occurrence what }
{
    match what {
        What::Order(console, command) => Occurrence::Order(console, Instruction::Plain(command)),
        What::Tick(console) => Occurrence::Tick(console),
        What::Deliver {
            receiver,
            console,
            universe,
            k,
        } => Occurrence::Deliver {
            receiver,
            console,
            universe,
            k,
        },
        What::Stray { receiver, from, to } => Occurrence::Stray { receiver, from, to },
        What::Show(receiver) => Occurrence::Show(receiver),
    }
}
