use devices::Link;
use targets::{Address, MemoryOffer, MemorySender, Target, TargetLink, Targets};

const PACKET: &[u8] = b"packet";

fn address(last: u8) -> Address {
    Address {
        host: [10, 0, 0, last],
        port: 5568,
    }
}

// Whether this is a datagram of the packet to that address, which failed or did not.
fn is_datagram(offer: &MemoryOffer, last: u8, has_failed: bool) -> bool {
    match offer {
        MemoryOffer::Packet { .. } => false,
        MemoryOffer::Datagram { to, bytes, failed } => {
            to.is(&address(last)) && bytes.as_slice() == PACKET && *failed == has_failed
        }
    }
}

fn is_packet(offer: &MemoryOffer) -> bool {
    match offer {
        MemoryOffer::Packet { universe, bytes } => *universe == 7 && bytes.as_slice() == PACKET,
        MemoryOffer::Datagram { .. } => false,
    }
}

// Two packets to two addresses, of which the first datagram failed.
fn are_all(offers: &[MemoryOffer]) -> bool {
    match offers {
        [first, lost, second, next, third, last] => {
            is_packet(first)
                && is_datagram(lost, 1, true)
                && is_datagram(second, 2, false)
                && is_packet(next)
                && is_datagram(third, 1, false)
                && is_datagram(last, 2, false)
        }
        _ => false,
    }
}

fn target(last: u8) -> Target {
    Target {
        universes: None,
        address: address(last),
    }
}

#[test]
fn each_address_behind_one_that_failed(rt: HostRuntime) {
    let mut targets = Targets::new();
    targets.add(target(1));
    targets.add(target(2));
    let mut link = TargetLink::new(MemorySender::new(rt.alloc(), 0, 1), targets);
    assert!(rt; link.send(7, PACKET).is_err());
    assert!(rt; link.send(7, PACKET).is_ok());
    assert!(rt; !link.sender.full && are_all(link.sender.offers.as_slice()));
}
