use thiserror::Error;

/// Why a datagram holds no data packet. Of several reasons the first of these is given.
#[derive(Clone, Copy, Debug, PartialEq, Eq, Error)]
pub enum Unreadable {
    /// Fewer than the 126 bytes of a packet without slots.
    #[error("fewer than 126 bytes")]
    Short,
    /// Another preamble or post-amble size (root layer).
    #[error("another preamble or post-amble size")]
    Preamble,
    /// Another ACN packet identifier (root layer).
    #[error("another ACN packet identifier")]
    Identifier,
    /// Another vector than VECTOR_ROOT_E131_DATA (root layer).
    #[error("another root vector")]
    RootVector,
    /// PDU flags other than 7, or lengths that fit neither the datagram nor one another (all
    /// layers).
    #[error("the lengths of its layers disagree")]
    Length,
    /// Another vector than VECTOR_E131_DATA_PACKET (framing layer).
    #[error("another framing vector")]
    FramingVector,
    /// A priority above 200 (framing layer).
    #[error("a priority above 200")]
    Priority,
    /// A universe of 0 or above 63999 (framing layer).
    #[error("a universe that is not 1 to 63999")]
    Universe,
    /// Another vector, address type, first address or increment (DMP layer).
    #[error("another DMP layer than that of levels")]
    Dmp,
    /// A property value count that is not 1 to 513, or not the one of the DMP length (DMP layer).
    #[error("a count of slots that does not fit")]
    Count,
}
