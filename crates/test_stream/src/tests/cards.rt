use network_tables::{
    CardName, CardRefusal, CardState, CardWord, Cards, HiddenCards, Holder, Route, card_among,
    choose, holder_of,
};

const OWN: [u8; 4] = [10, 0, 0, 2];

const OTHER: [u8; 4] = [10, 0, 0, 3];

// 10.0.0.0 and its mask of 24 bits, as numbers.
const NETWORK: u32 = 0x0a00_0000;

const MASK: u32 = 0xffff_ff00;

fn name(text: &str) -> CardName {
    CardName::from(text).unwrap_or_default()
}

// A card with an address and one without, and an address without a card.
fn cards() -> Cards {
    let mut cards = Cards::new();
    cards.add(Some(name("eth0")), Some(OWN));
    cards.add(Some(name("wlan0")), None);
    cards.add(None, Some(OTHER));
    cards
}

// A card that is named, and how it is; and the address that packets come from, or why not.
type Named = (&'static str, CardState, Result<[u8; 4], CardRefusal>);

fn is_named(row: &Named) -> bool {
    let (named, state, expected) = *row;
    let word = CardWord::read(named);
    choose(&word, word.row_of(&cards()), state) == expected
}

#[test]
fn the_card_that_is_named_is_chosen(rt: HostRuntime) {
    let rows = &[
        ("eth0", CardState::Up, Ok(OWN)),
        ("10.0.0.2", CardState::Down, Ok(OWN)),
        ("wlan0", CardState::Down, Err(CardRefusal::Down)),
        ("wlan0", CardState::NoLink, Err(CardRefusal::NoLink)),
        ("wlan0", CardState::Up, Err(CardRefusal::WithoutAddress)),
        ("10.0.0.3", CardState::Up, Err(CardRefusal::UnknownCard)),
        ("eth1", CardState::Down, Err(CardRefusal::NoCard)),
        ("10.0.0.4", CardState::Down, Err(CardRefusal::NoAddress)),
    ];
    for row in rows {
        assert!(rt; is_named(row));
    }
}

#[test]
fn cards_that_are_down_are_hidden(rt: HostRuntime) {
    let rows = &[
        (CardState::Down, "wlan0, eth1", 2),
        (CardState::NoLink, "", 0),
    ];
    for (state, names, count) in rows {
        let mut cards = cards();
        cards.add_other(name("eth1"));
        let mut hidden = HiddenCards::new();
        for card in cards.as_slice() {
            hidden.take_up(card, *state);
        }
        assert!(rt; hidden.names.as_str() == *names && hidden.count == *count);
    }
}

// By how many of three cards at its network it is looked for whose card an address is; the card
// that the system sends from it by, if any, and the address that it sends from at all; and the card
// that is found.
type Held = (usize, Option<&'static str>, [u8; 4], Option<&'static str>);

fn networks() -> [Route; 3] {
    [route("eth0"), route("eth1"), route("eth2")]
}

fn route(card: &str) -> Route {
    Route {
        card: name(card),
        network: NETWORK,
        mask: MASK,
        gateway: None,
    }
}

fn held_by(count: usize, by: Option<&str>, source: [u8; 4]) -> Option<CardName> {
    let mut asked = Cards::new();
    match by {
        Some(by) => asked.add(Some(name(by)), Some(OWN)),
        None => asked.add(Some(name("eth0")), Some(OTHER)),
    }
    match holder_of(OWN, &networks()[..count.min(3)]) {
        Holder::Card(card) => Some(card),
        Holder::OneOf { first, other, .. } => {
            card_among(OWN, &asked, Some(source), first, other)
        }
        _ => None,
    }
}

fn is_held(row: &Held) -> bool {
    let (count, by, source, expected) = *row;
    match (held_by(count, by, source), expected) {
        (Some(card), Some(expected)) => card.as_str() == expected,
        (None, None) => true,
        _ => false,
    }
}

#[test]
fn the_card_at_the_network_is_found(rt: HostRuntime) {
    let rows = &[
        (0, Some("eth0"), OWN, None),
        (1, Some("eth1"), OTHER, Some("eth0")),
        (2, Some("eth1"), OWN, Some("eth1")),
        // By no card: the first, or of two the other.
        (2, None, OWN, Some("eth0")),
        (2, None, OTHER, Some("eth1")),
        (3, Some("eth2"), OTHER, Some("eth2")),
        (3, None, OTHER, None),
    ];
    for row in rows {
        assert!(rt; is_held(row));
    }
}
