ghost use Rattle.std.specs.Prelude.{◌∷◌, ◌+◌, ◌≤◌, length, replicate, codes};
ghost use Rattle.sacn_packet.specs.Name.{padded_name};
ghost use Rattle.sacn_packet.specs.Wire.{IsData};

use sacn_packet::{Header, SourceName, Unreadable, encode, laws, parse};

const CID: [u8; 16] = [
    0xc0, 0xff, 0xee, 0, 0, 0, 0x40, 0, 0x80, 0, 0, 0, 0, 0, 0xe1, 0x31,
];

// The packet of one cue at half, of a source called `cueplayer`.
fn look_one_packet() -> [u8; 638]
    ensures { IsData result
        (record {
          cid = CID;
          name = padded_name (codes "cueplayer");
          priority = 100;
          sync = 0;
          sequence = 0;
          options = 0;
          universe = 1;
          start = 0;
        })
        (0x40 ∷ replicate 511 0) }
{
    let mut packet = [0; 638];
    packet[..53].copy_from_slice(&[
        0x00, 0x10, 0x00, 0x00, 0x41, 0x53, 0x43, 0x2d, 0x45, 0x31, 0x2e, 0x31, 0x37, 0x00, 0x00,
        0x00, 0x72, 0x6e, 0x00, 0x00, 0x00, 0x04, 0xc0, 0xff, 0xee, 0x00, 0x00, 0x00, 0x40, 0x00,
        0x80, 0x00, 0x00, 0x00, 0x00, 0x00, 0xe1, 0x31, 0x72, 0x58, 0x00, 0x00, 0x00, 0x02, 0x63,
        0x75, 0x65, 0x70, 0x6c, 0x61, 0x79, 0x65, 0x72,
    ]);
    packet[108..127].copy_from_slice(&[
        0x64, 0x00, 0x00, 0x00, 0x00, 0x00, 0x01, 0x72, 0x0b, 0x02, 0xa1, 0x00, 0x00, 0x00, 0x01,
        0x02, 0x01, 0x00, 0x40,
    ]);
    packet
}

fn overwrite(packet: &mut [u8], offset: usize, bytes: &[u8])
    requires { offset + length bytes.now ≤ length packet.old }
{
    packet[offset..offset + bytes.len()].copy_from_slice(bytes);
}

#[test]
fn look_one(rt: HostRuntime) {
    let header = Header {
        cid: CID,
        name: SourceName::new("cueplayer").unwrap(),
        priority: 100,
        sequence: 0,
        options: 0,
        universe: 1,
    };
    let mut slots = [0; 512];
    slots[0] = 64;
    let mut packet = [0xff; 638];
    encode(&header, &slots, &mut packet);
    assert!(rt; packet == look_one_packet());
}

#[test]
fn source_name_limits(rt: HostRuntime) {
    for (text, accepted) in &[
        ("", true),
        ("cueplayer", true),
        ("Bühne", true),
        (
            "012345678901234567890123456789012345678901234567890123456789012",
            true,
        ),
        (
            "0123456789012345678901234567890123456789012345678901234567890123",
            false,
        ),
        ("cue\0player", false),
        ("cueplayer\0", false),
    ] {
        assert!(rt; SourceName::new(text).is_some() == *accepted, "{text}");
    }
}

// Whether a datagram is a packet of the source with these slots, or has this fault.
fn reads_as(datagram: &[u8], wanted: Result<&[u8], Unreadable>) -> bool {
    match parse(datagram) {
        Ok(packet) => {
            packet.cid() == CID
                && packet.name() == b"cueplayer".as_slice()
                && wanted == Ok(packet.slots())
        }
        Err(fault) => wanted == Err(fault),
    }
}

// A packet without slots, and bytes behind it.
fn shortest_packet() -> [u8; 638] {
    let mut packet = look_one_packet();
    overwrite(&mut packet, 16, &[0x70, 0x6e]);
    overwrite(&mut packet, 38, &[0x70, 0x58]);
    overwrite(&mut packet, 115, &[0x70, 0x0b]);
    overwrite(&mut packet, 123, &[0x00, 0x01]);
    packet
}

// A packet with two bytes behind it.
fn trailed_packet() -> [u8; 640] {
    let mut datagram = [0x55; 640];
    datagram[..638].copy_from_slice(&look_one_packet());
    datagram
}

#[test]
fn parse_lengths(rt: HostRuntime) {
    let whole = look_one_packet();
    let shortest = shortest_packet();
    let trailed = trailed_packet();
    for (datagram, wanted) in &[
        ([].as_slice(), Err(Unreadable::Short)),
        (&shortest[..125], Err(Unreadable::Short)),
        (&shortest[..126], Ok([].as_slice())),
        (&whole, Ok(&whole[126..])),
        (&trailed, Ok(&whole[126..])),
        (&whole[..637], Err(Unreadable::Length)),
    ] {
        assert!(rt; reads_as(datagram, *wanted), "{} bytes", datagram.len());
    }
}

// What is wrong with so many of the first bytes of a packet.
fn fault_of_cut(length: usize) -> Option<Unreadable> {
    match length {
        0..=125 => Some(Unreadable::Short),
        126..=637 => Some(Unreadable::Length),
        _ => None,
    }
}

#[test]
fn cut_packet(rt: HostRuntime) {
    let whole = look_one_packet();
    for length in 0..=638 {
        let fault = parse(&whole[..length]).err();
        assert!(rt; fault == fault_of_cut(length), "{length} bytes");
    }
}

// What is wrong with a packet in which the byte at this place is turned.
fn fault_of_turned(offset: usize) -> Option<Unreadable> {
    match offset {
        0..=3 => Some(Unreadable::Preamble),
        4..=15 => Some(Unreadable::Identifier),
        16 | 17 | 38 | 39 | 115 | 116 => Some(Unreadable::Length),
        18..=21 => Some(Unreadable::RootVector),
        40..=43 => Some(Unreadable::FramingVector),
        113 => Some(Unreadable::Universe),
        117..=122 => Some(Unreadable::Dmp),
        123 | 124 => Some(Unreadable::Count),
        _ => None,
    }
}

// Whether a packet in which the byte at this place is turned has its fault, or the priority and
// the universe of its bytes.
fn is_turned(packet: &[u8], offset: usize) -> bool {
    match parse(packet) {
        Ok(packet) => {
            fault_of_turned(offset).is_none()
                && packet.priority() == if offset == 108 { 155 } else { 100 }
                && packet.universe() == if offset == 114 { 254 } else { 1 }
        }
        Err(fault) => fault_of_turned(offset) == Some(fault),
    }
}

#[test]
fn turned_bytes(rt: HostRuntime) {
    for offset in 0..638 {
        let mut packet = look_one_packet();
        packet[offset] ^= 0xff;
        assert!(rt; is_turned(&packet, offset), "offset {offset}");
    }
}

#[test]
fn renumber(rt: HostRuntime) {
    let before = look_one_packet();
    let mut packet = before;
    sacn_packet::renumber(&mut packet, 5, 0x40);
    for offset in 0..638 {
        let wanted = match offset {
            111 => 0x05,
            112 => 0x40,
            _ => before[offset],
        };
        assert!(rt; packet[offset] == wanted, "offset {offset}");
    }
}

#[test]
fn every_law() {
    laws::only_bytes();
    laws::only_prefix();
    laws::front();
    laws::read_back();
    laws::name_back();
}
