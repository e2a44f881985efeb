use desk_core::Command;

/// One event, taken whole before the next.
#[derive(Clone, Copy, Debug, PartialEq, Eq)]
pub struct Event {
    /// When it happens, in milliseconds.
    pub moment: u64,
    /// What happens.
    pub what: What,
}

/// What happens. Consoles and receivers are numbered from 0.
#[derive(Clone, Copy, Debug, PartialEq, Eq)]
pub enum What {
    /// A command for a console.
    Order(u16, Command),
    /// A tick of a console.
    Tick(u16),
    /// A packet that a console has sent reaches a receiver.
    Deliver {
        receiver: u16,
        console: u16,
        /// The number of its universe.
        universe: u16,
        /// Its place in the stream of that universe, counted from 0.
        k: u64,
    },
    /// A datagram from anywhere reaches a receiver.
    Stray {
        receiver: u16,
        /// The place of its first byte in the bytes of all strays.
        from: u32,
        /// The place behind its last byte.
        to: u32,
    },
    /// The slots of a receiver are asked for.
    Show(u16),
}
