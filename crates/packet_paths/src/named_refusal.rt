use network_tables::{CardRefusal, HiddenCards};

/// Why packets do not leave by the card that a text names.
#[derive(Clone, Copy, Debug)]
pub struct NamedRefusal {
    pub reason: CardRefusal,
    /// The cards that may have an address which is not known.
    pub hidden: HiddenCards,
}
