use crate::queue::Queue;

/// The packets of a universe, but for the first ones, which no event to come delivers.
#[derive(Debug, Drop)]
pub struct Shelf {
    /// The number of the universe.
    pub universe: u16,
    /// How many packets are gone, the first ones.
    pub gone: u64,
    /// The others, the first first.
    pub packets: Queue,
}
