ghost use Rattle.std.specs.Prelude.{◌≡◌, ◌+◌, ◌≤◌, length};
ghost use Rattle.byteorder.specs.Endian.{big_bytes};
ghost use Rattle.sacn_packet.specs.Reading as reading;
ghost use Rattle.sacn_packet.specs.Faults.{differs_at};

use byteorder::{BigEndian, ByteOrder};

// The number in the two bytes from an offset on.
pub(crate) fn number_at(bytes: &[u8], offset: usize) -> u16
    requires { offset + 2 ≤ length bytes.now }
    ensures { result ≡ reading.number_at bytes.now offset }
{
    BigEndian::read_u16(&bytes[offset..offset + 2])
}

// The length in the two bytes that open a PDU.
pub(crate) fn length_at(bytes: &[u8], offset: usize) -> u16
    requires { offset + 2 ≤ length bytes.now }
    ensures { result ≡ reading.length_at bytes.now offset }
{
    number_at(bytes, offset) % 0x1000
}

// Whether another number than this stands in the four bytes from an offset on.
pub(crate) fn differs_from(bytes: &[u8], offset: usize, wanted: u32) -> bool
    requires { offset + 4 ≤ length bytes.now }
    ensures { result ≡ differs_at bytes.now offset (big_bytes 4 wanted) }
{
    BigEndian::read_u32(&bytes[offset..offset + 4]) != wanted
}
