ghost use Rattle.std.specs.Prelude.{◌≡◌};
ghost use Rattle.packet_paths.specs.Sockets.{is_refused, is_tie_due, is_tied, other_index};
ghost use Rattle.packet_paths.specs.Sockets.{same_number, source_address};

use std::io::ErrorKind;

/// The address that packets to a host come from: that of the card that was named, if one was; else
/// the one that the route to the host gives.
pub fn source_address(named: Option<[u8; 4]>, route: Option<[u8; 4]>) -> Option<[u8; 4]>
    ensures { result ≡ source_address named route }
{
    match named {
        Some(address) => Some(address),
        None => route,
    }
}

/// Whether a socket is to be tied to a card anew, by the number that the system gives the card now,
/// and that of the card that it is tied to; none where there is none.
pub fn is_tie_due(card: Option<u32>, tied: Option<u32>, is_any_route: bool) -> bool
    ensures { result ≡ is_tie_due card tied is_any_route }
{
    !is_any_route && !is_same_number(card, tied)
}

fn is_same_number(card: Option<u32>, tied: Option<u32>) -> bool
    ensures { result ≡ same_number card tied }
{
    match (card, tied) {
        (None, None) => true,
        (Some(card), Some(tied)) => card == tied,
        _ => false,
    }
}

/// The number of another card than this one, which need not be there.
pub fn other_index(index: u32) -> u32
    ensures { result ≡ other_index index }
{
    if index == 1 { 2 } else { 1 }
}

/// Whether a socket is tied to a card, by the system's reasons for not connecting it by that card,
/// and by another one: only the other is refused since the socket may not leave by it.
pub fn is_tied(own: ErrorKind, other: ErrorKind) -> bool
    ensures { result ≡ is_tied own other }
{
    !is_refused(own) && is_refused(other)
}

fn is_refused(kind: ErrorKind) -> bool
    ensures { result ≡ is_refused kind }
{
    matches!(kind, ErrorKind::InvalidInput)
}
