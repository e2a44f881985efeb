ghost use Rattle.std.specs.Prelude.{◌≡◌, [], option_map, Some};
ghost use Rattle.std.specs.List.{list_all, position};
ghost use Rattle.ascii_text.specs.Forms.{is_colon};
ghost use Rattle.network_tables.specs.Routes.{name_seen};
ghost use Rattle.network_tables.specs.Tables.{of_address, of_name, row_name, with_other, with_row};
ghost use Rattle.network_tables.specs.Tables.{has_address, is_called, is_known};

use crate::fields::field;
use crate::route::{CardName, card_name};
use arrayvec::ArrayVec;

/// Of more cards and addresses the first are known.
pub const MOST_CARDS: usize = 64;

/// A network card with an IPv4 address, or without one.
#[derive(Clone, Copy, Debug, Default)]
pub struct Card {
    /// Its name; none where an address has no card that is known.
    pub name: Option<CardName>,
    pub address: Option<[u8; 4]>,
}

impl Card {
    fn is_called(&self, name: &str) -> bool
        ensures { result ≡ is_called name.now self.now.name }
    {
        match &self.name {
            Some(known) => known.as_str() == name,
            None => false,
        }
    }

    fn has_address(&self, address: [u8; 4]) -> bool
        ensures { result ≡ has_address address self.now.address }
    {
        match self.address {
            Some(known) => known == address,
            None => false,
        }
    }
}

/// The network cards of this machine: a row for each address of one, or one without an address.
#[derive(Drop)]
pub struct Cards {
    pub rows: ArrayVec<Card, MOST_CARDS>,
}

impl Cards {
    /// Has no card.
    pub fn new() -> Cards
        ensures { result.rows.items ≡ [] }
    {
        Cards {
            rows: ArrayVec::new(),
        }
    }

    /// Adds a row, where there is room for it.
    pub fn add(&mut self, name: Option<CardName>, address: Option<[u8; 4]>)
        ensures { self.new.rows.items ≡ with_row self.old.rows.items name address }
    {
        let _ = self.rows.try_push(Card { name, address });
    }

    /// Adds the card of this name without an address, unless it has a row.
    pub fn add_other(&mut self, name: CardName)
        ensures { self.new.rows.items ≡ with_other self.old.rows.items name }
    {
        if self.of_name(name.as_str()).is_none() {
            self.add(Some(name), None);
        }
    }

    /// The rows.
    pub fn as_slice(&self) -> &[Card]
        ensures { result.now ≡ self.now.rows.items }
    {
        self.rows.as_slice()
    }

    /// The first row of the card of this name.
    pub fn of_name(&self, name: &str) -> Option<Card>
        ensures { result ≡ of_name name.now self.now.rows.items }
    {
        let rows = self.rows.as_slice();
        rows.iter().find(|card| card.is_called(name)).copied()
    }

    /// The row of this address.
    pub fn of_address(&self, address: [u8; 4]) -> Option<Card>
        ensures { result ≡ of_address address self.now.rows.items }
    {
        let rows = self.rows.as_slice();
        rows.iter().find(|card| card.has_address(address)).copied()
    }

    /// Whether the card of each address is known.
    pub fn are_known(&self) -> bool
        ensures { result ≡ list_all (λ card. is_known card.name) self.now.rows.items }
    {
        self.rows.as_slice().iter().all(|card| card.name.is_some())
    }
}

/// The name of the card in a line of `/proc/net/dev`: it stands before the colon of the first
/// field. A line that is none of a card, as the heading, gives `None`.
pub fn row_name(line: &[u8]) -> Option<CardName>
    ensures { option_map name_seen result ≡ row_name line.now }
{
    let front = field(line, 0);
    match colon_in(front) {
        Some(end) => card_name(&front[..end]),
        None => None,
    }
}

fn colon_in(text: &[u8]) -> Option<usize>
    ensures { result ≡ position is_colon text.now }
{
    text.iter().position(|byte| *byte == b':')
}
