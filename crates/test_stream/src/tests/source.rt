ghost use Rattle.std.specs.Prelude.{◌≡◌, ◌<◌, ◌^◌, Contains, length};
ghost use Rattle.sacn_source.specs.Stands.{earliest_of, ended_of, lane_universes};

use devices::memory::MemoryLink;
use sacn_packet::{SourceName, parse};
use sacn_source::Offered::{Lost, Quiet, Sent};
use sacn_source::{Identity, Offered, Sender, laws};

const CID: [u8; 16] = [
    0xc0, 0xff, 0xee, 0, 0, 0, 0x40, 0, 0x80, 0, 0, 0, 0, 0, 0xe1, 0x31,
];

fn player() -> Identity {
    Identity::new(CID, SourceName::new("cueplayer").unwrap(), 100).unwrap()
}

// A frame with a level at its first slot.
fn frame(level: u8) -> [u8; 512] {
    let mut slots = [0; 512];
    slots[0] = level;
    slots
}

// What a packet of the player to universe 1 says: its number, its options and its first slot.
fn packet_values(bytes: &[u8]) -> Option<(u8, u8, u8)> {
    let packet = parse(bytes).ok()?;
    let (level, others) = packet.slots().split_first()?;
    let is_from_player = packet.cid() == CID
        && packet.name() == b"cueplayer".as_slice()
        && packet.priority() == 100
        && packet.sync() == 0
        && packet.universe() == 1
        && packet.start() == 0
        && others.len() == 511
        && others.iter().all(|level| *level == 0);
    is_from_player.then_some((packet.sequence(), packet.options(), *level))
}

// Whether a link was offered this as its send of this place.
fn has_sent(link: &MemoryLink, place: usize, wanted: (u8, u8, u8), failed: bool) -> bool {
    match link.sends.get(place) {
        Some(send) => {
            send.universe == 1
                && send.failed == failed
                && packet_values(send.bytes.as_slice()) == Some(wanted)
        }
        None => false,
    }
}

// Offers universe 1 a frame each 25 ms from 0 on, and answers whether each answer is as wanted.
fn answers(sender: &mut Sender, link: &mut MemoryLink, rows: &[(u8, Offered)]) -> bool
    requires here { Contains (lane_universes sender.old) 1 }
    requires unoffered { earliest_of sender.old 1 ≡ 0 }
    requires live { ended_of sender.old 1 ≡ 0 }
    requires few { length rows.now < 2 ^ 32 }
    ensures here { Contains (lane_universes sender.new) 1 }
    ensures live { ended_of sender.new 1 ≡ 0 }
{
    for tick in 0..rows.len() {
        let (level, wanted) = rows[tick];
        if sender.offer(25 * tick as u64, 1, &frame(level), link) != wanted {
            return false;
        }
    }
    true
}

#[test]
fn identity_priority(rt: HostRuntime) {
    let name = SourceName::new("cueplayer").unwrap();
    for (priority, accepted) in &[(201, false), (200, true), (0, true)] {
        let identity = Identity::new(CID, name, *priority);
        assert!(rt; identity.is_some() == *accepted, "{priority}");
    }
}

// Whether a link was offered these packets, those whose send failed marked.
fn has_all(link: &MemoryLink, packets: &[((u8, u8, u8), bool)]) -> bool {
    if link.sends.len() != packets.len() || link.full {
        return false;
    }
    for (place, (wanted, failed)) in packets.iter().enumerate() {
        if !has_sent(link, place, *wanted, *failed) {
            return false;
        }
    }
    true
}

#[test]
fn lost_third_send(rt: HostRuntime) {
    let mut sender = Sender::open(rt.alloc(), player(), &[1]).expect(&rt, "memory");
    let mut link = MemoryLink::new(rt.alloc(), 2, 1);
    let rows = [
        (200, Sent(0)),
        (200, Sent(1)),
        (200, Lost(2)),
        (200, Sent(3)),
    ];
    let are_right = answers(&mut sender, &mut link, &rows);
    let packets = [
        ((0, 0, 200), false),
        ((1, 0, 200), false),
        ((2, 0, 200), true),
        ((3, 0, 200), false),
    ];
    assert!(rt; are_right && has_all(&link, &packets));
}

#[test]
fn changes_back_and_ends(rt: HostRuntime) {
    let mut sender = Sender::open(rt.alloc(), player(), &[1]).expect(&rt, "memory");
    let mut link = MemoryLink::new(rt.alloc(), 0, 0);
    let rows = [
        (10, Sent(0)),
        (20, Sent(1)),
        (10, Sent(2)),
        (10, Sent(3)),
        (10, Sent(4)),
        (10, Sent(5)),
        (10, Quiet),
    ];
    let are_right = answers(&mut sender, &mut link, &rows);
    let ends = [
        sender.terminate(1, &mut link),
        sender.terminate(1, &mut link),
        sender.terminate(1, &mut link),
    ];
    assert!(rt; are_right && ends == [Sent(6), Sent(7), Sent(8)] && sender.sent(1) == 9);
    let packets = [
        ((0, 0, 10), false),
        ((1, 0, 20), false),
        ((2, 0, 10), false),
        ((3, 0, 10), false),
        ((4, 0, 10), false),
        ((5, 0, 10), false),
        ((6, 0x40, 0), false),
        ((7, 0x40, 0), false),
        ((8, 0x40, 0), false),
    ];
    assert!(rt; has_all(&link, &packets));
}

// It passes whichever allocation fails.
#[test]
fn each_growth_refused(rt: HostRuntime) {
    let sender = match Sender::open(rt.alloc(), player(), &[1, 2]) {
        Ok(sender) => sender,
        Err(_) => Sender::open(rt.alloc(), player(), &[1, 2]).expect(&rt, "memory"),
    };
    assert!(rt; sender.sent(1) == 0 && sender.sent(2) == 0);
}

#[test]
fn every_law() {
    laws::packets_are_close();
    laws::keep_alives_are_late();
    laws::newest_packet_is_newest_frame();
    laws::answers_are_alike();
}
