use night_record::{Difference, HeadName, RecordHead};
use std::test::Fail;

// The text of a head, without its last LF. The checksum is that of `abc` (FIPS 180-4).
const LINE: &[u8] =
    b"! cueplayer record 1: show ba7816bf8f01cfea414140de5dae2223b00361a396177a9cb410ff61f20015ad\n\
    ! cid c0ffee00-0000-4000-8000-00000000e131, priority 100, base 1, name cueplayer, \
    started 2026-11-26T19:30:00.250Z";

const SHOW: [u8; 32] = [
    0xba, 0x78, 0x16, 0xbf, 0x8f, 0x01, 0xcf, 0xea, 0x41, 0x41, 0x40, 0xde, 0x5d, 0xae, 0x22, 0x23,
    0xb0, 0x03, 0x61, 0xa3, 0x96, 0x17, 0x7a, 0x9c, 0xb4, 0x10, 0xff, 0x61, 0xf2, 0x00, 0x15, 0xad,
];

const CID: [u8; 16] = [
    0xc0, 0xff, 0xee, 0x00, 0x00, 0x00, 0x40, 0x00, 0x80, 0x00, 0x00, 0x00, 0x00, 0x00, 0xe1, 0x31,
];

// What stands in the line, and what no head has in its place.
const NO_HEADS: &[(&[u8], &[u8])] = &[
    (b"! cueplayer", b"!  cueplayer"),
    (b"record 1", b"record 2"),
    (b"show ba", b"show BA"),
    (b"show ba", b"show b"),
    (b"show ba", b"show xa"),
    (b"\n! cid", b", cid"),
    (b"\n! cid", b"\r\n! cid"),
    (b"cid c0ffee00-0000", b"cid C0ffee00-0000"),
    (b"cid c0ffee00-0000", b"cid c0ffee000-000"),
    (b"priority 100", b"priority 256"),
    (b"priority 100", b"priority 0100"),
    (b"priority 100", b"priority -1"),
    (b"base 1", b"base 65536"),
    (b"base 1", b"base 01"),
    (b"base 1, ", b"base 1,"),
    (b"19:30", b"1930:"),
    (b".250Z", b".250"),
    (b".250Z", b".250z"),
    (b".250Z", b".250Z\r"),
    (b".250Z", b".250Z\n"),
];

fn head_of(name: &[u8]) -> Option<RecordHead> {
    Some(RecordHead {
        show: SHOW,
        cid: CID,
        priority: 100,
        base: 1,
        name: HeadName::new(name)?,
        started: *b"2026-11-26T19:30:00.250Z",
    })
}

fn is_read_back(name: &[u8]) -> bool {
    let Some(head) = head_of(name) else {
        return false;
    };
    let lines = head.lines();
    let Some((_, text)) = lines.as_slice().split_last() else {
        return false;
    };
    match RecordHead::read(text) {
        Some(read) => {
            read.differs_from(&head).is_none()
                && read.name.as_bytes() == name
                && read.started == head.started
        }
        None => false,
    }
}

// Whether the line is read, with this text in the place of that one.
fn is_read_with(rt: &HostRuntime, old: &[u8], new: &[u8]) -> Result<bool, Fail> {
    for place in 0..LINE.len() {
        let (before, rest) = LINE.split_at(place);
        if let Some(behind) = rest.strip_prefix(old) {
            let mut text = Vec::from_slice(rt.alloc(), before)?;
            text.extend_from_slice(new)?;
            text.extend_from_slice(behind)?;
            return Ok(RecordHead::read(text.as_slice()).is_some());
        }
    }
    Ok(true)
}

#[test]
fn line_is_the_text(rt: HostRuntime) -> Result<(), Fail> {
    let line = head_of(b"cueplayer").map(|head| head.lines());
    let text = line
        .as_ref()
        .and_then(|line| line.as_slice().strip_suffix(b"\n"));
    assert!(rt; text == Some(LINE));
    Ok(())
}

#[test]
fn what_is_written_is_read(rt: HostRuntime) -> Result<(), Fail> {
    assert!(rt; is_read_back(b"cueplayer"));
    assert!(rt; is_read_back(b""));
    assert!(rt; is_read_back(b"a, b, started then, name \xff"));
    assert!(rt; is_read_back(&[b','; 63]));
    assert!(rt; HeadName::new(&[b','; 64]).is_none());
    Ok(())
}

#[test]
fn nothing_else_is_read(rt: HostRuntime) -> Result<(), Fail> {
    assert!(rt; RecordHead::read(LINE).is_some());
    for (old, new) in NO_HEADS {
        assert!(rt; !is_read_with(&rt, old, new)?, "{new:?}");
    }
    assert!(rt; RecordHead::read(b"").is_none());
    assert!(rt; RecordHead::read(b"0 tick").is_none());
    Ok(())
}

#[test]
fn first_difference_is_told(rt: HostRuntime) -> Result<(), Fail> {
    let (Some(night), Some(mut head)) = (head_of(b"cueplayer"), head_of(b"other")) else {
        assert!(rt; false, "no name");
        return Ok(());
    };
    head.started = *b"2026-11-27T19:30:00.250Z";
    assert!(rt; head.differs_from(&night) == Some(Difference::Name));
    head.base = 2;
    assert!(rt; head.differs_from(&night) == Some(Difference::Base));
    head.priority = 101;
    assert!(rt; head.differs_from(&night) == Some(Difference::Priority));
    head.cid[15] = 0;
    assert!(rt; head.differs_from(&night) == Some(Difference::Cid));
    head.show[0] = 0;
    assert!(rt; head.differs_from(&night) == Some(Difference::Show));
    Ok(())
}
