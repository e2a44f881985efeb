// What changes in a packet that its source keeps and sends again and again.
ghost use Rattle.std.specs.Prelude.{◌≡◌, ◌++◌, ℕ, List, take, slice_set};
ghost use Rattle.sacn_packet.specs.Wire.{Fields, IsData};

use crate::Slots;

/// Gives a packet of 512 slots another sequence number and other options (framing layer: sequence
/// number and options, offsets 111 and 112).
pub fn renumber(packet: &mut [u8; 638], sequence: u8, options: u8)
    ensures bytes { packet.new ≡ slice_set (slice_set packet.old 111 sequence) 112 options }
    ensures packet { (fields : Fields) (slots : List ℕ) → IsData packet.old fields slots →
        IsData packet.new (record fields { sequence = sequence; options = options }) slots }
{
    packet[111] = sequence;
    packet[112] = options;
}

/// Gives a packet of 512 slots other slots (DMP layer: property values, from offset 126 on).
pub fn refill(packet: &mut [u8; 638], slots: &Slots)
    ensures bytes { packet.new ≡ take 126 packet.old ++ slots.now }
    ensures packet { (fields : Fields) (old : List ℕ) → IsData packet.old fields old →
        IsData packet.new fields slots.now }
{
    packet[126..].copy_from_slice(slots);
}

/// The slots of a packet of 512 slots (DMP layer: property values, from offset 126 on).
pub fn slots_in(packet: &[u8; 638]) -> &[u8]
    ensures { (fields : Fields) (slots : List ℕ) → IsData packet.now fields slots →
        result.now ≡ slots }
{
    &packet[126..]
}
