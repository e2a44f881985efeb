ghost use Rattle.std.specs.Prelude.{◌≡◌, ◌≤◌, length};
ghost use Rattle.sacn_packet.specs.Header.{header_fields};
ghost use Rattle.sacn_packet.specs.Wire.{IsData};
ghost use Rattle.sacn_packet.specs.Layers.{root_layer, framing_layer, dmp_layer};

use crate::source_name::SourceName;
use byteorder::{BigEndian, ByteOrder};

/// What one packet of a source says besides its slots.
#[derive(Clone, Copy, Debug, PartialEq, Eq)]
pub struct Header {
    /// The source's component identifier, a UUID (root layer: CID).
    pub cid: [u8; 16],
    pub name: SourceName,
    /// 0 to 200; of two sources of a universe the greater wins (framing layer: priority).
    pub priority: u8,
    /// One more than that of the universe's packet before, modulo 256 (framing layer: sequence
    /// number).
    pub sequence: u8,
    /// Bit 0x80 Preview_Data, 0x40 Stream_Terminated, 0x20 Force_Synchronization (framing layer:
    /// options).
    pub options: u8,
    /// 1 to 63999 (framing layer: universe).
    pub universe: u16,
}

// Preamble size, post-amble size, identifier, flags and length, vector.
const ROOT_HEAD: [u8; 22] = [
    0x00, 0x10, 0x00, 0x00, 0x41, 0x53, 0x43, 0x2d, 0x45, 0x31, 0x2e, 0x31, 0x37, 0x00, 0x00, 0x00,
    0x72, 0x6e, 0x00, 0x00, 0x00, 0x04,
];

// Flags and length, vector.
const FRAMING_HEAD: [u8; 6] = [0x72, 0x58, 0x00, 0x00, 0x00, 0x02];

// Flags and length, vector, address and data type, first address, increment, count, START code.
const DMP_HEAD: [u8; 11] = [
    0x72, 0x0b, 0x02, 0xa1, 0x00, 0x00, 0x00, 0x01, 0x02, 0x01, 0x00,
];

fn write_root(out: &mut [u8], cid: &[u8; 16])
    requires { length out.old ≡ 38 }
    ensures { out.new ≡ root_layer 512 cid.now }
{
    out[..22].copy_from_slice(&ROOT_HEAD);
    out[22..].copy_from_slice(cid);
}

fn write_framing(out: &mut [u8], header: &Header)
    requires { length out.old ≡ 77 }
    ensures { out.new ≡ framing_layer 512 (header_fields header.now) }
{
    let (head, rest) = out.split_at_mut(6);
    let (name, tail) = rest.split_at_mut(64);
    head.copy_from_slice(&FRAMING_HEAD);
    name.copy_from_slice(header.name.field());
    let mut universe = [0; 2];
    BigEndian::write_u16(&mut universe, header.universe);
    let [high, low] = universe;
    tail.copy_from_slice(&[
        header.priority,
        0,
        0,
        header.sequence,
        header.options,
        high,
        low,
    ]);
}

/// The 512 slots of a packet, slot 1 first (E1.31, DMP Layer: property values behind the START
/// code).
pub type Slots = [u8; 512];

fn write_dmp(out: &mut [u8], slots: &Slots)
    requires { length out.old ≡ 523 }
    ensures { out.new ≡ dmp_layer 512 0 slots.now }
{
    out[..11].copy_from_slice(&DMP_HEAD);
    out[11..].copy_from_slice(slots);
}

/// Writes the data packet of 512 slots with START code 0 and synchronization address 0.
pub fn encode(header: &Header, slots: &Slots, out: &mut [u8; 638])
    requires priority { header.now.priority ≤ 200 }
    requires universe_from_1 { 1 ≤ header.now.universe }
    requires universe_to_63999 { header.now.universe ≤ 63999 }
    ensures { IsData out.new (header_fields header.now) slots.now }
{
    let (root, rest) = out.split_at_mut(38);
    let (framing, dmp) = rest.split_at_mut(77);
    write_root(root, &header.cid);
    write_framing(framing, header);
    write_dmp(dmp, slots);
}
