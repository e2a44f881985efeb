ghost use Rattle.std.specs.Prelude.{◌≡◌, ◌++◌, ℕ, List, filter, map, option_to_list, take};
ghost use Rattle.arrayvec.specs.declared.array_string.ArrayString.{ArrayString};
ghost use Rattle.byte_reading.specs.LinesLeft.{bytes_left, source};
ghost use Rattle.byte_reading.specs.ShortLines.{AreRead};
ghost use Rattle.network_tables.specs.CardTables.{AreNamed, SayEach, card_networks, own_addresses};
ghost use Rattle.network_tables.specs.CardTables.{with_others};
ghost use Rattle.network_tables.specs.Holders.{is_at_card};
ghost use Rattle.network_tables.specs.Routes.{route_of, route_seen};
ghost use Rattle.network_tables.specs.declared.tree.TreeLine.{TreeLine as SaidOf};

use crate::route::Route;
use crate::table::{Cards, MOST_CARDS, row_name};
use crate::tree::{OwnAddresses, TreeLine};
use arrayvec::ArrayVec;
use byte_reading::{BlockSource, ShortLines};

/// The routes of a table like `/proc/net/route` that lead to the networks at which cards are: of
/// more than there is room for, the first.
pub fn card_networks<B: BlockSource>(table: &mut ShortLines<B>) -> ArrayVec<Route, MOST_CARDS>
    ensures { (lines : List (List ℕ))
        × AreRead (bytes_left B.left table.old) (B.may_fail (source table.old)) lines
        × (map route_seen result.items ≡ card_networks lines) }
{
    let mut networks = ArrayVec::new();
    for _ in 0..u64::MAX {
        let Some(line) = table.next_line() else {
            return networks;
        };
        add_network(&mut networks, line.as_str().as_bytes());
    }
    networks
}

// Adds the route of a line, where it leads to a network at which its card is.
fn add_network(networks: &mut ArrayVec<Route, MOST_CARDS>, line: &[u8])
    ensures { map route_seen networks.new.items ≡ take 64 (map route_seen networks.old.items
        ++ filter is_at_card (option_to_list (route_of line.now))) }
{
    if networks.is_full() {
        return;
    }
    if let Some(route) = Route::read(line) {
        if route.is_at_card() {
            networks.push(route);
        }
    }
}

/// The addresses of this machine, by a table like `/proc/net/fib_trie`: each once, and of more than
/// there is room for, the first.
pub fn own_addresses<B: BlockSource>(tree: &mut ShortLines<B>) -> ArrayVec<[u8; 4], MOST_CARDS>
    ensures { (lines : List (List ℕ))
        × AreRead (bytes_left B.left tree.old) (B.may_fail (source tree.old)) lines
        × (said : List SaidOf) × SayEach lines said × (result.items ≡ own_addresses said) }
{
    let mut own = OwnAddresses::new();
    for _ in 0..u64::MAX {
        let Some(line) = tree.next_line() else {
            return own.addresses;
        };
        own.take_up(TreeLine::read(line.as_str().as_bytes()));
    }
    own.addresses
}

/// Adds the cards of a table like `/proc/net/dev`, each without an address, where they have no row
/// yet.
pub fn add_others<B: BlockSource>(cards: &mut Cards, table: &mut ShortLines<B>)
    ensures { (lines : List (List ℕ))
        × AreRead (bytes_left B.left table.old) (B.may_fail (source table.old)) lines
        × (names : List (ArrayString 15)) × AreNamed lines names
        × (cards.new.rows.items ≡ with_others cards.old.rows.items names) }
{
    for _ in 0..u64::MAX {
        let Some(line) = table.next_line() else {
            return;
        };
        if let Some(name) = row_name(line.as_str().as_bytes()) {
            cards.add_other(name);
        }
    }
}
