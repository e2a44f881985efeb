ghost use Rattle.std.specs.Prelude.{◌≡◌, []};
ghost use Rattle.network_tables.specs.Fields.{field};
ghost use Rattle.network_tables.specs.Trees.{Says, found_after, found_seen, is_leaf, is_own_line};
ghost use Rattle.network_tables.specs.Trees.{with_address};

use crate::fields::field;
use crate::group::is_multicast;
use crate::table::MOST_CARDS;
use arrayvec::ArrayVec;
use std::net::Ipv4Addr;

/// What a line of `/proc/net/fib_trie` says of this machine's addresses.
#[derive(Clone, Copy, Debug)]
pub enum TreeLine {
    /// Here begins what the system knows of this address.
    Leaf(Ipv4Addr),
    /// The address is this machine's.
    Own,
    /// Nothing of them.
    Other,
}

impl TreeLine {
    /// Reads a line.
    pub fn read(line: &[u8]) -> TreeLine
        ensures { Says line.now result }
    {
        if is_own_line(line) {
            return TreeLine::Own;
        }
        if !is_leaf(line) {
            return TreeLine::Other;
        }
        match Ipv4Addr::parse_ascii(field(line, 1)) {
            Ok(address) => TreeLine::Leaf(address),
            Err(_) => TreeLine::Other,
        }
    }
}

fn is_own_line(line: &[u8]) -> bool
    ensures { result ≡ is_own_line line.now }
{
    field(line, 0) == b"/32".as_slice()
        && field(line, 1) == b"host".as_slice()
        && field(line, 2) == b"LOCAL".as_slice()
}

fn is_leaf(line: &[u8]) -> bool
    ensures { result ≡ is_leaf line.now }
{
    field(line, 0) == b"|--".as_slice()
}

/// The addresses of this machine, as the lines of `/proc/net/fib_trie` tell them one by one.
#[derive(Drop)]
pub struct OwnAddresses {
    /// The address that the last leaf names.
    pub leaf: Option<[u8; 4]>,
    /// Each once, and no multicast group that a card has joined; of more than there is room for,
    /// the first.
    pub addresses: ArrayVec<[u8; 4], MOST_CARDS>,
}

impl OwnAddresses {
    /// None, before the first line.
    pub fn new() -> OwnAddresses
        ensures leaf { result.leaf ≡ None }
        ensures addresses { result.addresses.items ≡ [] }
    {
        OwnAddresses {
            leaf: None,
            addresses: ArrayVec::new(),
        }
    }

    /// Takes up what one more line says.
    pub fn take_up(&mut self, line: TreeLine)
        ensures { found_seen self.new ≡ found_after (found_seen self.old) line }
    {
        match (line, self.leaf) {
            (TreeLine::Leaf(address), _) => self.leaf = Some(address.octets()),
            (TreeLine::Own, Some(address)) => add_once(&mut self.addresses, address),
            _ => {}
        }
    }
}

fn add_once(addresses: &mut ArrayVec<[u8; 4], MOST_CARDS>, address: [u8; 4])
    ensures { addresses.new.items ≡ with_address addresses.old.items address }
{
    if !is_multicast(address) && !addresses.as_slice().contains(&address) {
        let _ = addresses.try_push(address);
    }
}
