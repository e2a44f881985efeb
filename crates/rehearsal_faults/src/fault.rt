use thiserror::Error;

/// Why nothing was rehearsed. Of several reasons the first of these is given.
#[derive(Clone, Copy, Debug, PartialEq, Eq, Error)]
pub enum Fault {
    /// There is no console, or there are more than four.
    #[error("a rehearsal has one to four consoles")]
    Consoles,
    /// There are more than eight receivers, two of one universe, or one of a universe outside 1 to
    /// 63999.
    #[error("a rehearsal has at most eight receivers, each of its own universe of 1 to 63999")]
    Receivers,
    /// A console plays a show that is not there.
    #[error("a console has no show")]
    NoShow,
    /// A console's base, or the base plus an ordinal with a patched dimmer, is not 1 to 63999.
    #[error("a universe of a console is not 1 to 63999")]
    Universe,
    /// An allocation failed.
    #[error("out of memory")]
    Memory,
}
