ghost use Rattle.std.specs.Prelude.{◌≡◌};
ghost use Rattle.network_tables.specs.Choices.{Names, choice, named_row};

use crate::card::CardState;
use crate::table::{Card, Cards};
use std::net::Ipv4Addr;

/// The card that a word names.
#[derive(Clone, Copy, Debug)]
pub enum CardWord<'a> {
    /// That of this address.
    Address(Ipv4Addr),
    /// That of this name.
    Name(&'a str),
}

impl<'a> CardWord<'a> {
    /// Reads a word: one that writes an address names that; any other is a name.
    pub fn read(text: &'a str) -> CardWord<'a>
        ensures { Names text.now result }
    {
        match Ipv4Addr::parse_ascii(text.as_bytes()) {
            Ok(address) => CardWord::Address(address),
            Err(_) => CardWord::Name(text),
        }
    }

    /// The row of the card among these, where it has one.
    pub fn row_of(&self, cards: &Cards) -> Option<Card>
        ensures { result ≡ named_row self.now cards.now.rows.items }
    {
        match self {
            CardWord::Address(address) => cards.of_address(address.octets()),
            CardWord::Name(name) => cards.of_name(name),
        }
    }
}

/// Why a card that was named cannot be sent by.
#[derive(Clone, Copy, Debug, PartialEq, Eq)]
pub enum CardRefusal {
    /// There is no card of this name.
    NoCard,
    /// This machine does not have the address.
    NoAddress,
    /// This machine has the address, and its card is not known.
    UnknownCard,
    /// The card is down.
    Down,
    /// The card has no link, and no address.
    NoLink,
    /// The card has no address.
    WithoutAddress,
}

/// The address that packets come from by the card that a word names, whose row this is, if it has
/// one, and which is in this state.
///
/// # Errors
///
/// Why it cannot be sent by.
pub fn choose(word: &CardWord, row: Option<Card>, state: CardState) -> Result<[u8; 4], CardRefusal>
    ensures { result ≡ choice word.now row state }
{
    let Some(row) = row else {
        return Err(match word {
            CardWord::Name(_) => CardRefusal::NoCard,
            CardWord::Address(_) => CardRefusal::NoAddress,
        });
    };
    match (row.name, row.address) {
        (Some(_), Some(address)) => Ok(address),
        (None, Some(_)) => Err(CardRefusal::UnknownCard),
        (_, None) => Err(match state {
            CardState::Down => CardRefusal::Down,
            CardState::NoLink => CardRefusal::NoLink,
            CardState::Up => CardRefusal::WithoutAddress,
        }),
    }
}
