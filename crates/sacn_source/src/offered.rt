/// What became of an offer or a termination.
#[derive(Clone, Copy, Debug, Default, PartialEq, Eq)]
pub enum Offered {
    /// A packet of this sequence number went out.
    Sent(u8),
    /// The packet of this sequence number was lost: the link failed.
    Lost(u8),
    /// No packet was due.
    #[default]
    Quiet,
}
