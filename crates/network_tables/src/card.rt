ghost use Rattle.std.specs.Prelude.{◌≡◌};
ghost use Rattle.network_tables.specs.Cards.{is_down, is_without_link, state_by_files};

use crate::fields::flags as flags_in;

// Set in a card's flags where it is up.
const IS_UP: u32 = 0x1;

/// How a card is.
#[derive(Clone, Copy, Debug, PartialEq, Eq)]
pub enum CardState {
    /// It is up, and has a link, or tells none.
    Up,
    /// It is up, and has no link.
    NoLink,
    /// It is down.
    Down,
}

/// How a card is, by the first lines of its files `flags` and `operstate`. What these do not tell
/// is well.
pub fn card_state(flags: &[u8], operstate: &[u8]) -> CardState
    ensures { result ≡ state_by_files flags.now operstate.now }
{
    if is_down(flags) {
        CardState::Down
    } else if is_without_link(operstate) {
        CardState::NoLink
    } else {
        CardState::Up
    }
}

fn is_down(flags: &[u8]) -> bool
    ensures { result ≡ is_down flags.now }
{
    match flags_in(flags) {
        Some(flags) => flags & IS_UP == 0,
        None => false,
    }
}

// `carrier` says the same, but waits while a card is being changed.
fn is_without_link(state: &[u8]) -> bool
    ensures { result ≡ is_without_link state.now }
{
    state == b"down".as_slice()
        || state == b"lowerlayerdown".as_slice()
        || state == b"dormant".as_slice()
        || state == b"notpresent".as_slice()
}
