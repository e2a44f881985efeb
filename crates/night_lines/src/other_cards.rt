ghost use Rattle.std.specs.Prelude.{◌≡◌, ◌≤◌, filter_map, flat_map, length, option_map};
ghost use Rattle.night_lines.specs.OtherCards as spec;

use arrayvec::{ArrayString, ArrayVec};
use network_tables::{Card, CardName, Cards, MOST_CARDS, card_text};

/// The line of the cards that nothing is sent by: all that are known have room.
pub type OtherCardsLine = ArrayString<2300>;

// A card that packets could come from, and do not.
#[derive(Clone, Copy, Debug, Default)]
struct OtherCard {
    name: CardName,
    address: [u8; 4],
}

/// The line of the cards with an address that packets come from none of, given the addresses that
/// they come from; `None` where there is no other card.
pub fn other_cards_line(cards: &Cards, sources: &[[u8; 4]]) -> Option<OtherCardsLine>
    ensures { option_map spec.other_cards_seen result
        ≡ spec.other_cards_line sources.now cards.now.rows.items }
{
    let others = others(cards, sources);
    match others.as_slice() {
        [] => None,
        [first, rest @ ..] => Some(line_of_others(first, rest)),
    }
}

fn others(cards: &Cards, sources: &[[u8; 4]]) -> ArrayVec<OtherCard, MOST_CARDS>
    ensures { result.items ≡ filter_map (spec.other_card sources.now) cards.now.rows.items }
{
    let mut others = ArrayVec::new();
    for card in cards.rows.as_slice() {
        if let Some(other) = other_card(card, sources) {
            others.push(other);
        }
    }
    others
}

fn other_card(card: &Card, sources: &[[u8; 4]]) -> Option<OtherCard>
    ensures { result ≡ spec.other_card sources.now card.now }
{
    match (card.name, card.address) {
        (Some(name), Some(address)) => {
            if sources.contains(&address) || name.as_str() == "lo" {
                return None;
            }
            Some(OtherCard { name, address })
        }
        _ => None,
    }
}

fn line_of_others(first: &OtherCard, rest: &[OtherCard]) -> OtherCardsLine
    requires { length rest.now ≤ 63 }
    ensures { result.bytes ≡ spec.line_of_others first.now rest.now }
{
    let mut line = OtherCardsLine::new();
    line.push_str("other cards: ");
    line.push_str(card_text(&first.name, first.address).as_str());
    line.push_str(more_text(rest).as_str());
    line.push_str("; --interface ");
    line.push_str(first.name.as_str());
    line.push_str(" sends by it\n");
    line
}

fn more_text(rest: &[OtherCard]) -> ArrayString<2205>
    requires { length rest.now ≤ 63 }
    ensures { result.bytes ≡ flat_map spec.more_text rest.now }
{
    let mut text = ArrayString::new();
    for other in rest {
        text.push_str(", ");
        text.push_str(card_text(&other.name, other.address).as_str());
    }
    text
}
