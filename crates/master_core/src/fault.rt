use thiserror::Error;

/// Why a master is not set.
#[derive(Clone, Copy, Debug, PartialEq, Eq, Error)]
pub enum NoMaster {
    /// The show has no such submaster.
    #[error("no such submaster")]
    NoSub,
    /// The show has no such group.
    #[error("no such group")]
    NoGroup,
}
