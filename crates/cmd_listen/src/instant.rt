/// A line as each universe sees it.
#[derive(Clone, Copy, Debug, PartialEq, Eq)]
pub struct Instant {
    /// In milliseconds.
    pub moment: u64,
    /// The universe of the datagram's packet; 0 where there is none.
    pub to: u16,
    /// Whether counts are told and begin anew.
    pub tells: bool,
    /// Whether slots are looked at.
    pub looks: bool,
}
