ghost use Rattle.std.specs.Prelude.{◌≡◌, []};
ghost use Rattle.network_tables.specs.HiddenCards.{behind_if_room, count_with, hidden_name};
ghost use Rattle.network_tables.specs.HiddenCards.{names_with};

use crate::card::CardState;
use crate::table::Card;
use arrayvec::ArrayString;

// The bytes of the names, with the commas between them.
const ROOM: usize = 160;

/// The cards that may have an address which is not known: those that are down, and have none that
/// is.
#[derive(Clone, Copy, Debug)]
pub struct HiddenCards {
    /// Their names, with commas between them, as far as there is room.
    pub names: ArrayString<ROOM>,
    /// How many they are.
    pub count: usize,
}

impl HiddenCards {
    /// Has none.
    pub fn new() -> HiddenCards
        ensures { (result.names.bytes ≡ []) × (result.count ≡ 0) }
    {
        HiddenCards {
            names: ArrayString::new(),
            count: 0,
        }
    }

    /// Takes up a card that is in this state, where it is one of these.
    pub fn take_up(&mut self, card: &Card, state: CardState)
        ensures names { self.new.names.bytes
            ≡ names_with self.old.names.bytes (hidden_name card.now.name card.now.address state) }
        ensures count { self.new.count
            ≡ count_with self.old.count (hidden_name card.now.name card.now.address state) }
    {
        if let (Some(name), None, CardState::Down) = (&card.name, card.address, state) {
            self.push(name.as_str());
            self.count = self.count.saturating_add(1);
        }
    }

    fn push(&mut self, name: &str)
        ensures names { self.new.names.bytes ≡ behind_if_room self.old.names.bytes name.now }
        ensures count { self.new.count ≡ self.old.count }
    {
        let front = if self.names.is_empty() { "" } else { ", " };
        let left = ROOM - self.names.len();
        if front.len().saturating_add(name.len()) <= left {
            self.names.push_str(front);
            self.names.push_str(name);
        }
    }
}
