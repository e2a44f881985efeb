ghost use Rattle.std.specs.Prelude.{◌≡◌};
ghost use Rattle.link_notices.specs.Sources.{source_state};

use network_tables::CardState;

/// How an address of this machine is.
#[derive(Clone, Copy, Debug, Default, PartialEq, Eq)]
pub enum SourceState {
    /// Packets leave by its card.
    #[default]
    Sends,
    /// Its card has no link.
    NoLink,
    /// Its card is down.
    Down,
    /// The machine does not have it.
    Lost,
}

/// How an address is, by how its card is, and whether the machine has the address.
pub fn source_state(card: CardState, is_of_machine: bool) -> SourceState
    ensures { result ≡ source_state card is_of_machine }
{
    match card {
        CardState::Down => SourceState::Down,
        _ if !is_of_machine => SourceState::Lost,
        CardState::NoLink => SourceState::NoLink,
        CardState::Up => SourceState::Sends,
    }
}
