use crate::cards::card_state;
use network_tables::{Card, CardState, CardWord, Cards, HiddenCards, choose};
use packet_paths::NamedRefusal;

/// The address that packets come from, by the card of this machine that a text names.
///
/// # Errors
///
/// Why that card cannot be sent by, and which of the cards are hidden.
pub fn source_by_name(
    rt: &HostRuntime,
    named: &str,
    cards: &Cards,
) -> Result<[u8; 4], NamedRefusal> {
    let word = CardWord::read(named);
    let row = word.row_of(cards);
    let state = state_of(rt, &row);
    match choose(&word, row, state) {
        Ok(address) => Ok(address),
        Err(reason) => {
            let hidden = hidden_cards(rt, cards);
            Err(NamedRefusal { reason, hidden })
        }
    }
}

// How the card of a row is. One without a name counts as up.
fn state_of(rt: &HostRuntime, row: &Option<Card>) -> CardState {
    let Some(card) = row else {
        return CardState::Up;
    };
    match card.name {
        Some(name) => card_state(rt, name.as_str()),
        None => CardState::Up,
    }
}

// Those of these cards that may have an address which is not known.
fn hidden_cards(rt: &HostRuntime, cards: &Cards) -> HiddenCards {
    let mut hidden = HiddenCards::new();
    for card in cards.as_slice() {
        hidden.take_up(card, state_of(rt, &Some(*card)));
    }
    hidden
}
