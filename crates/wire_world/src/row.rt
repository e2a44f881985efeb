/// One packet that was sent.
#[derive(Debug, Drop)]
pub struct Row {
    /// The number of its universe.
    pub universe: u16,
    /// The bytes of its datagram, the first first.
    pub bytes: Vec<u8>,
}
