ghost use Rattle.std.specs.Prelude.{◌≡◌, Some, true};

use byte_reading::{BlockSource, ShortLines};
use network_tables::{Cards, add_others, best_route, card_networks, next_neighbor, own_addresses};
use std::io::ErrorKind;

// A read puts at most so many bytes into a block.
const SIZES: &[usize] = &[1, 3, 5000];

// A default route, and two to the network 10.0.0.0 of 24 bits.
const ROUTES: &str = "Iface\tDestination\tGateway\tFlags\tRefCnt\tUse\tMetric\tMask\n\
    eth0\t00000000\t0100000A\t0003\t0\t0\t100\t00000000\n\
    eth1\t0000000A\t00000000\t0001\t0\t0\t100\t00FFFFFF\n\
    eth2\t0000000A\t00000000\t0001\t0\t0\t100\t00FFFFFF\n";

// One that answered, and one that did not.
const NEIGHBORS: &str = "IP address       HW type     Flags       HW address\n\
    10.0.0.8         0x1         0x2         00:00:5e:00:53:01\n\
    \n\
    10.0.0.9         0x1         0x0         00:00:00:00:00:00\n";

// 10.0.0.2 is told twice, and 10.0.0.255 is a broadcast address.
const TREE: &str = "Local:\n  +-- 0.0.0.0/0 3 0 5\n\
    \x20    |-- 10.0.0.2\n\
    \x20       /32 host LOCAL\n\
    \x20    |-- 10.0.0.255\n\
    \x20       /32 link BROADCAST\n\
    \x20    |-- 127.0.0.1\n\
    \x20       /32 host LOCAL\n\
    \x20    |-- 10.0.0.2\n\
    \x20       /32 host LOCAL\n";

const CARDS: &str = "Inter-|   Receive\n face |bytes    packets\n\
    \x20   lo:     100       1\n\
    \x20 eth1:     100       1\n";

// A source whose text is known.
#[derive(Drop)]
struct MemoryBlocks<'a> {
    // What is left of it.
    text: &'a [u8],
    // At most so many of its bytes are put into a block, and at least one.
    most: usize,
    // In place of its end, a read fails.
    is_broken: bool,
}

impl BlockSource for MemoryBlocks<'_> {
    ghost left = { λ m. Some m.text.now };

    ghost may_fail = { λ m. m.is_broken ≡ true };

    fn next_block(&mut self, block: &mut [u8]) -> Result<usize, ErrorKind> {
        if self.is_broken && self.text.is_empty() {
            return Err(ErrorKind::Other);
        }
        let count = self.most.max(1).min(self.text.len()).min(block.len());
        let (front, rest) = self.text.split_at(count);
        block[..count].copy_from_slice(front);
        self.text = rest;
        Ok(count)
    }
}

fn read<'a>(text: &'a [u8], most: usize, is_broken: bool) -> ShortLines<MemoryBlocks<'a>> {
    ShortLines::new(MemoryBlocks {
        text,
        most,
        is_broken,
    })
}

fn gives(text: &[u8], most: usize, is_broken: bool, expected: &[&str]) -> bool {
    let mut lines = read(text, most, is_broken);
    for line in expected {
        match lines.next_line() {
            Some(given) if given.as_str() == *line => {}
            _ => return false,
        }
    }
    lines.next_line().is_none()
}

#[test]
fn each_line_is_given(rt: HostRuntime) {
    for most in SIZES {
        assert!(rt; gives(b"", *most, false, &[]));
        assert!(rt; gives(b"a\n", *most, false, &["a"]));
        assert!(rt; gives(b"\n\nb", *most, false, &["", "", "b"]));
        assert!(rt; gives(b"a\t\xff~\n\x7f", *most, false, &["a  ~", " "]));
        // What a read that fails leaves of a line is no line.
        assert!(rt; gives(b"a\nb", *most, true, &["a"]));
    }
}

#[test]
fn a_long_line_is_cut(rt: HostRuntime) {
    let text = [b'x'; 200];
    for most in SIZES {
        let mut lines = read(&text, *most, false);
        let length = lines.next_line().unwrap_or_default().len();
        assert!(rt; length == 160 && lines.next_line().is_none());
    }
}

fn leads_by(host: [u8; 4], most: usize, card: &str, gateway: Option<[u8; 4]>) -> bool {
    let mut table = read(ROUTES.as_bytes(), most, false);
    match best_route(&mut table, host) {
        Some(route) => route.card.as_str() == card && route.gateway == gateway,
        None => false,
    }
}

#[test]
fn the_best_route_of_the_table_is_found(rt: HostRuntime) {
    for most in SIZES {
        assert!(rt; leads_by([10, 0, 0, 9], *most, "eth1", None));
        assert!(rt; leads_by([10, 0, 1, 9], *most, "eth0", Some([10, 0, 0, 1])));
        let mut empty = read(b"", *most, false);
        assert!(rt; best_route(&mut empty, [10, 0, 0, 9]).is_none());
    }
}

#[test]
fn each_neighbor_is_found(rt: HostRuntime) {
    for most in SIZES {
        let mut table = read(NEIGHBORS.as_bytes(), *most, false);
        for (host, has_answered) in &[([10, 0, 0, 8], true), ([10, 0, 0, 9], false)] {
            let is_next = match next_neighbor(&mut table) {
                Some(row) => row.address.octets() == *host && row.has_answered == *has_answered,
                None => false,
            };
            assert!(rt; is_next);
        }
        assert!(rt; next_neighbor(&mut table).is_none());
    }
}

#[test]
fn each_card_and_address_is_found(rt: HostRuntime) {
    for most in SIZES {
        let networks = card_networks(&mut read(ROUTES.as_bytes(), *most, false));
        assert!(rt; networks.as_slice().len() == 2);
        assert!(rt;
            networks
                .as_slice()
                .iter()
                .all(|route| route.network == 0x0a00_0000)
        );
        let own = own_addresses(&mut read(TREE.as_bytes(), *most, false));
        assert!(rt; own.as_slice() == [[10, 0, 0, 2], [127, 0, 0, 1]].as_slice());
        let mut cards = Cards::new();
        add_others(&mut cards, &mut read(CARDS.as_bytes(), *most, false));
        assert!(rt; cards.as_slice().len() == 2 && cards.of_name("eth1").is_some());
    }
}
