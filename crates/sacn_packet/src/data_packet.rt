ghost use Rattle.std.specs.Prelude.{◌≡◌, ◌==◌, ◌≤◌, length};
ghost use Rattle.std.specs.List.{position};

use crate::bytes::number_at;
use std::marker::Model;

/// A data packet in the bytes of a datagram. Contracts see it as its fields and slots.
#[derive(Debug, Drop)]
pub struct DataPacket<'a> {
    bytes: &'a [u8],
}

impl<'a> Model for DataPacket<'a> {
    ghost use Rattle.std.specs.Prelude.{◌≤◌, length};
    ghost use Rattle.sacn_packet.specs.Wire.{WirePacket};
    ghost use Rattle.sacn_packet.specs.Reading.{packet_in};

    ghost Value = { WirePacket };

    ghost view = { λ a. packet_in a.bytes.now };

    ghost invariant = { λ a. 126 ≤ length a.bytes.now };
}

impl<'a> DataPacket<'a> {
    ghost use Rattle.sacn_packet.specs.Name.{name_in};
    ghost use Rattle.sacn_packet.specs.Reading.{packet_in};

    // The packet of these bytes.
    pub(crate) fn new(bytes: &'a [u8]) -> DataPacket<'a>
        requires { 126 ≤ length bytes.now }
        ensures { result ≡ packet_in bytes.now }
    {
        DataPacket { bytes }
    }

    /// The source's component identifier (root layer: CID).
    pub fn cid(&self) -> [u8; 16]
        ensures { result ≡ self.now.fields.cid }
    {
        let mut cid = [0; 16];
        cid.copy_from_slice(&self.bytes[22..38]);
        cid
    }

    /// The source's name as sent, up to the first zero byte or all 64 (framing layer: source name).
    pub fn name(&self) -> &'a [u8]
        ensures { result.now ≡ name_in self.now.fields.name }
    {
        let field = &self.bytes[44..108];
        match zero_in(field) {
            Some(end) => &field[..end],
            None => field,
        }
    }

    /// 0 to 200 (framing layer: priority).
    pub fn priority(&self) -> u8
        ensures { result ≡ self.now.fields.priority }
    {
        self.bytes[108]
    }

    /// The universe whose synchronization packets release this one, or 0 (framing layer:
    /// synchronization address).
    pub fn sync(&self) -> u16
        ensures { result ≡ self.now.fields.sync }
    {
        number_at(self.bytes, 109)
    }

    /// One more than that of the universe's packet before, modulo 256 (framing layer: sequence
    /// number).
    pub fn sequence(&self) -> u8
        ensures { result ≡ self.now.fields.sequence }
    {
        self.bytes[111]
    }

    /// Bit 0x80 Preview_Data, 0x40 Stream_Terminated, 0x20 Force_Synchronization (framing layer:
    /// options).
    pub fn options(&self) -> u8
        ensures { result ≡ self.now.fields.options }
    {
        self.bytes[112]
    }

    /// 1 to 63999 (framing layer: universe).
    pub fn universe(&self) -> u16
        ensures { result ≡ self.now.fields.universe }
    {
        number_at(self.bytes, 113)
    }

    /// What the slots are, 0 for levels of dimmers (DMP layer: START code).
    pub fn start(&self) -> u8
        ensures { result ≡ self.now.fields.start }
    {
        self.bytes[125]
    }

    /// The slots, 0 to 512 of them (DMP layer: property values).
    pub fn slots(&self) -> &'a [u8]
        ensures { result.now ≡ self.now.slots }
    {
        &self.bytes[126..]
    }
}

// The place of the first zero byte.
fn zero_in(field: &[u8]) -> Option<usize>
    ensures { result ≡ position (λ byte. byte == 0) field.now }
{
    field.iter().position(|byte| *byte == 0)
}
