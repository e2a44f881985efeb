ghost use Rattle.std.specs.Prelude.{◌≡◌, ◌≤◌, [], ◌∷◌, length, IfOk, OnErr};
ghost use Rattle.std.specs.Result.{result_err};
ghost use Rattle.sacn_packet.specs.Faults.{fault_of, differs_at, lengths_disagree, count_disagrees};
ghost use Rattle.sacn_packet.specs.Wire.{WirePacket, HasPacket, packet_identifier};

use crate::bytes::{differs_from, length_at, number_at};
use crate::data_packet::DataPacket;
use crate::unreadable::Unreadable;

/// The greatest number of a universe; the least is 1 (framing layer: universe).
pub const TOP_UNIVERSE: u16 = 63_999;

// Preamble size and post-amble size.
const PREAMBLE: u32 = 0x0010_0000;

// VECTOR_ROOT_E131_DATA
const ROOT_VECTOR: u32 = 0x0000_0004;

// VECTOR_E131_DATA_PACKET
const FRAMING_VECTOR: u32 = 0x0000_0002;

// The flags of each PDU, 7, in the four bits above its length.
const FLAGS: u16 = 0x7000;

// Whether the ACN packet identifier, `ASC-E1.17` and three zero bytes, is another.
fn has_other_identifier(datagram: &[u8]) -> bool
    requires { 126 ≤ length datagram.now }
    ensures { result ≡ differs_at datagram.now 4 packet_identifier }
{
    differs_from(datagram, 4, u32::from_be_bytes(*b"ASC-"))
        || differs_from(datagram, 8, u32::from_be_bytes(*b"E1.1"))
        || differs_from(datagram, 12, u32::from_be_bytes(*b"7\0\0\0"))
}

// Whether the flags or the lengths of the three PDUs are no packet's. Both are compared at once.
fn has_bad_lengths(datagram: &[u8]) -> bool
    requires { 126 ≤ length datagram.now }
    ensures { result ≡ lengths_disagree datagram.now }
{
    let root = number_at(datagram, 16);
    !(FLAGS + 110..=FLAGS + 0x0fff).contains(&root)
        || datagram.len() < 16 + usize::from(root - FLAGS)
        || number_at(datagram, 38) != root - 22
        || number_at(datagram, 115) != root - 99
}

// Whether the DMP PDU is of another form: vector, address and data type, first address, increment.
fn has_other_form(datagram: &[u8]) -> bool
    requires { 126 ≤ length datagram.now }
    ensures { result ≡ differs_at datagram.now 117 (0x02 ∷ 0xa1 ∷ 0 ∷ 0 ∷ 0 ∷ 1 ∷ []) }
{
    differs_from(datagram, 117, 0x02a1_0000) || number_at(datagram, 121) != 1
}

// Whether the property value count is out of range, or not that of the DMP length.
fn has_bad_count(datagram: &[u8]) -> bool
    requires { 126 ≤ length datagram.now }
    ensures { result ≡ count_disagrees datagram.now }
{
    let count = number_at(datagram, 123);
    !(1..=513).contains(&count) || count + 10 != length_at(datagram, 115)
}

// The first fault that applies.
fn fault_in(datagram: &[u8]) -> Option<Unreadable>
    ensures { result ≡ fault_of datagram.now }
{
    if datagram.len() < 126 {
        Some(Unreadable::Short)
    } else if differs_from(datagram, 0, PREAMBLE) {
        Some(Unreadable::Preamble)
    } else if has_other_identifier(datagram) {
        Some(Unreadable::Identifier)
    } else if differs_from(datagram, 18, ROOT_VECTOR) {
        Some(Unreadable::RootVector)
    } else if has_bad_lengths(datagram) {
        Some(Unreadable::Length)
    } else if differs_from(datagram, 40, FRAMING_VECTOR) {
        Some(Unreadable::FramingVector)
    } else if datagram[108] > 200 {
        Some(Unreadable::Priority)
    } else if !(1..=TOP_UNIVERSE).contains(&number_at(datagram, 113)) {
        Some(Unreadable::Universe)
    } else if has_other_form(datagram) {
        Some(Unreadable::Dmp)
    } else if has_bad_count(datagram) {
        Some(Unreadable::Count)
    } else {
        None
    }
}

/// The data packet at the front of a datagram. It has 0 to 512 slots, and bytes behind it are
/// ignored (E1.31-2018: root, framing and DMP layers).
pub fn parse(datagram: &[u8]) -> Result<DataPacket<'_>, Unreadable>
    ensures ok { IfOk result (λ packet. HasPacket datagram.now packet) }
    ensures fault { result_err result ≡ fault_of datagram.now }
    ensures refused { OnErr result ((packet : WirePacket) → HasPacket datagram.now packet → ⊥) }
{
    match fault_in(datagram) {
        Some(fault) => Err(fault),
        None => {
            let size = 16 + usize::from(length_at(datagram, 16));
            Ok(DataPacket::new(&datagram[..size]))
        }
    }
}
