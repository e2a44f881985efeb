ghost use Rattle.std.specs.Prelude.{◌≡◌, ◌≤◌, ◌++◌, flat_map, length, option_map};
ghost use Rattle.std.specs.Prelude.{option_to_list, take};
ghost use Rattle.remarks.specs.Remarks.{excerpt, remark_of};
ghost use Rattle.remarks.specs.Cards.{address_word, choice_text, choices, front_behind};
ghost use Rattle.remarks.specs.Cards.{listed_behind, of_card, of_route, refusal_parts};
ghost use Rattle.remarks.specs.Cards.{unknown_parts};

use crate::name::of_name;
use crate::remark::{Remark, join, part, push_shown};
use network_tables::{Card, CardRefusal, CardText, Cards, card_text, host_text};

/// Cards without an address that are down: their names, with commas between them, and how many
/// they are.
#[derive(Clone, Copy, Debug)]
pub struct DownCards<'a> {
    pub names: &'a str,
    pub count: usize,
}

/// The route to a host leads by another card than this.
pub fn of_route(host: [u8; 4], card: &str, other: &str) -> Remark
    ensures { result.items ≡ of_route host card.now other.now }
{
    let host = host_text(host);
    join(&[
        b"the route to ",
        part(host.as_str()),
        b" leads by ",
        part(other),
        b", and not by ",
        part(card),
        b": --any-route sends by it",
    ])
}

/// Why a card that was named cannot be sent by, and what to do. Where the card of an address is not
/// known, it may be one that is down.
pub fn of_card(named: &str, refusal: CardRefusal, cards: &Cards, down: DownCards<'_>) -> Remark
    ensures { result.items ≡ of_card named.now refusal cards.now.rows.items down.entry }
{
    let shown = of_name(named);
    let address = address_word(cards.are_known());
    let mut remark = of_refusal(shown.as_str(), address, refusal, down);
    push_choices(&mut remark, cards.as_slice());
    remark
}

fn of_refusal(card: &str, address: &str, refusal: CardRefusal, down: DownCards<'_>) -> Remark
    ensures { result.items
        ≡ remark_of (refusal_parts refusal card.now address.now down.entry) }
{
    let (card, address) = (part(card), part(address));
    match refusal {
        CardRefusal::NoAddress => join(&[b"no card has ", card, b": "]),
        CardRefusal::NoCard => join(&[b"no card ", card, b": "]),
        CardRefusal::UnknownCard => unknown_card(card, down),
        CardRefusal::Down => join(&[card, b" is down: ip link set ", card, b" up; "]),
        CardRefusal::NoLink => {
            join(&[
                card,
                b" has no link and no ",
                address,
                b": check the cable; ",
            ])
        }
        CardRefusal::WithoutAddress => join(&[card, b" has no ", address, b": "]),
    }
}

// What a card without a row of its own does not have. Where the card of an address is not known, it
// may be this one.
fn address_word(are_known: bool) -> &'static str
    ensures { result.now ≡ address_word are_known }
{
    if are_known {
        "address"
    } else {
        "known address"
    }
}

// This machine has an address, and no card is known to have it. One that is down may: the system's
// files do not tell.
fn unknown_card(address: &[u8], down: DownCards<'_>) -> Remark
    ensures { result.items ≡ remark_of (unknown_parts down.entry.count address.now
        down.entry.names.now) }
{
    let names = part(down.names);
    if down.count == 0 {
        return join(&[b"no card is known to have ", address, b": "]);
    }
    let up = b"no card that is up is known to have ";
    if down.count == 1 {
        join(&[
            up,
            address,
            b": ",
            names,
            b" is down; ip link set ",
            names,
            b" up; ",
        ])
    } else {
        join(&[
            up,
            address,
            b": ",
            names,
            b" are down; ip link set NAME up; ",
        ])
    }
}

// Adds which cards can be sent by.
fn push_choices(remark: &mut Remark, cards: &[Card])
    requires { length remark.old.items ≤ 512 }
    ensures { remark.new.items
        ≡ take 512 (remark.old.items ++ flat_map excerpt (choices cards.now)) }
{
    let mut front = "there are ";
    for card in cards {
        front = push_choice(remark, front, card);
    }
}

// Adds the card behind this text, where it can be sent by, and answers what stands before the next
// one.
fn push_choice<'a>(remark: &mut Remark, front: &'a str, card: &Card) -> &'a str
    requires { length remark.old.items ≤ 512 }
    ensures text { remark.new.items ≡ take 512 (remark.old.items ++ flat_map excerpt
        (listed_behind front.now (option_to_list (choice_text card.now)))) }
    ensures front { result.now ≡ front_behind front.now (option_to_list (choice_text card.now)) }
{
    match choice_text(card) {
        Some(text) => {
            push_shown(remark, front.as_bytes());
            push_shown(remark, text.as_str().as_bytes());
            ", "
        }
        None => front,
    }
}

fn choice_text(card: &Card) -> Option<CardText>
    ensures { option_map (λ text. text.bytes) result ≡ choice_text card.now }
{
    match (&card.name, card.address) {
        (Some(name), Some(address)) => Some(card_text(name, address)),
        _ => None,
    }
}
