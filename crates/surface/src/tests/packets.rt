//! sacn_packet: look_one's bytes, parse_lengths, ignored_kinds's priority, renumber, cut_packet
//! and turned_bytes.

ghost use Rattle.std.specs.Prelude.{◌≡◌, length};

use super::rows::CID;
use sacn_packet::{DataPacket, Header, SourceName, Unreadable, encode, parse, refill, renumber};
use std::process::Abort;

fn name(rt: &impl Abort) -> SourceName {
    SourceName::new("cueplayer").expect(rt, "a name")
}

// look_one's packet.
fn one_lamp(rt: &impl Abort) -> [u8; 638]
    ensures { length result ≡ 638 }
{
    let header = Header {
        cid: CID,
        name: name(rt),
        priority: 100,
        sequence: 0,
        options: 0,
        universe: 1,
    };
    let mut slots = [0; 512];
    slots[0] = 64;
    let mut packet = [0xaa; 638];
    encode(&header, &slots, &mut packet);
    packet
}

const HEAD: [u8; 53] = *b"\x00\x10\x00\x00ASC-E1.17\0\0\0\x72\x6e\0\0\0\x04\
\xc0\xff\xee\0\0\0\x40\0\x80\0\0\0\0\0\xe1\x31\x72\x58\0\0\0\x02cueplayer";

const TAIL: [u8; 19] = [
    0x64, 0, 0, 0, 0, 0, 1, 0x72, 0x0b, 2, 0xa1, 0, 0, 0, 1, 2, 1, 0, 0x40,
];

#[test]
fn look_one(rt: HostRuntime) {
    let packet = one_lamp(&rt);
    assert!(rt; packet[..53] == HEAD[..]);
    assert!(rt; packet[53..108] == [0; 55]);
    assert!(rt; packet[108..127] == TAIL[..]);
    assert!(rt; packet[127..] == [0; 511]);
}

#[test]
fn source_names(rt: HostRuntime) {
    let longest = "123456789012345678901234567890123456789012345678901234567890123";
    assert!(rt; longest.len() == 63);
    assert!(rt; SourceName::new(longest).is_some());
    assert!(rt; SourceName::new("").is_some());
    assert!(rt; SourceName::new("a\0b").is_none());
    let long = "1234567890123456789012345678901234567890123456789012345678901234";
    assert!(rt; SourceName::new(long).is_none());
}

// Whether it has look_one's fields and slots.
fn is_one_lamp(packet: &DataPacket<'_>) -> bool {
    packet.cid() == CID
        && packet.name() == b"cueplayer".as_slice()
        && packet.priority() == 100
        && packet.sync() == 0
        && packet.sequence() == 0
        && packet.options() == 0
        && packet.universe() == 1
        && packet.start() == 0
        && packet.slots().len() == 512
        && packet.slots()[0] == 64
}

// The first 126 bytes with the lengths of a packet without slots.
fn without_slots(rt: &impl Abort) -> [u8; 126] {
    let whole = one_lamp(rt);
    let mut packet = [0; 126];
    packet.copy_from_slice(&whole[..126]);
    packet[16] = 0x70;
    packet[17] = 0x6e;
    packet[38] = 0x70;
    packet[39] = 0x58;
    packet[115] = 0x70;
    packet[116] = 0x0b;
    packet[123] = 0;
    packet[124] = 1;
    packet
}

fn has_no_slots(datagram: &[u8]) -> bool {
    match parse(datagram) {
        Ok(packet) => packet.slots().is_empty(),
        Err(_) => false,
    }
}

fn is_read(datagram: &[u8]) -> bool {
    match parse(datagram) {
        Ok(packet) => is_one_lamp(&packet),
        Err(_) => false,
    }
}

fn fault(datagram: &[u8]) -> Option<Unreadable> {
    parse(datagram).err()
}

#[test]
fn parse_lengths(rt: HostRuntime) {
    let whole = one_lamp(&rt);
    let mut longer = [7; 640];
    longer[..638].copy_from_slice(&whole);
    assert!(rt; fault(&[]) == Some(Unreadable::Short));
    assert!(rt; fault(&whole[..125]) == Some(Unreadable::Short));
    assert!(rt; has_no_slots(&without_slots(&rt)));
    assert!(rt; is_read(&whole));
    assert!(rt; is_read(&longer));
    assert!(rt; fault(&whole[..637]) == Some(Unreadable::Length));
}

#[test]
fn cut_packet(rt: HostRuntime) {
    let whole = one_lamp(&rt);
    for length in 0..=638usize {
        let wanted = match length {
            0..=125 => Some(Unreadable::Short),
            126..=637 => Some(Unreadable::Length),
            _ => None,
        };
        assert!(rt; fault(&whole[..length]) == wanted, "{length}");
    }
}

// The fault where all eight bits of the byte at an offset are turned over.
fn turned(offset: usize) -> Option<Unreadable> {
    match offset {
        0..=3 => Some(Unreadable::Preamble),
        4..=15 => Some(Unreadable::Identifier),
        16 | 17 | 38 | 39 | 115 | 116 => Some(Unreadable::Length),
        18..=21 => Some(Unreadable::RootVector),
        40..=43 => Some(Unreadable::FramingVector),
        113 => Some(Unreadable::Universe),
        117..=122 => Some(Unreadable::Dmp),
        123 | 124 => Some(Unreadable::Count),
        _ => None,
    }
}

#[test]
fn turned_bytes(rt: HostRuntime) {
    for offset in 0..638usize {
        let mut packet = one_lamp(&rt);
        packet[offset] = !packet[offset];
        assert!(rt; fault(&packet) == turned(offset), "{offset}");
    }
}

#[test]
fn priority_201(rt: HostRuntime) {
    let mut packet = one_lamp(&rt);
    packet[108] = 201;
    assert!(rt; fault(&packet) == Some(Unreadable::Priority));
}

#[test]
fn renumber_and_refill(rt: HostRuntime) {
    let mut wanted = one_lamp(&rt);
    let mut packet = one_lamp(&rt);
    renumber(&mut packet, 5, 0x40);
    wanted[111] = 5;
    wanted[112] = 0x40;
    assert!(rt; packet == wanted);
    refill(&mut packet, &[3; 512]);
    assert!(rt; packet[..126] == wanted[..126]);
    assert!(rt; packet[126..] == [3; 512]);
}
