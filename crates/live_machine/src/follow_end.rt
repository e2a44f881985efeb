/// Why a night does not follow its main for now.
#[derive(Clone, Copy, Debug, PartialEq, Eq)]
pub enum FollowEnd {
    /// The operator asks where the night is. Then it follows on.
    Asked,
    /// There are no more lines, or the following has ended.
    Ended,
    /// The night is over.
    Over,
}
