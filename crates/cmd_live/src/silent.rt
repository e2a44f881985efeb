use devices::{Link, LinkFault};

/// A link that takes nothing, and does not tell what it was offered.
#[derive(Drop)]
pub struct Silent;

impl Link for Silent {
    fn send(&mut self, _universe: u16, _bytes: &[u8]) -> Result<(), LinkFault> {
        Err(LinkFault)
    }
}
