ghost use Rattle.std.specs.Prelude.{◌≡◌, ◌≤◌, IfSome};
ghost use Rattle.cmd_words.specs.Number.{number_between};
ghost use Rattle.cmd_words.specs.Target.{target_of, universe_range};

use crate::address::{address, split_once};
use crate::number::{TOP_UNIVERSE, number_between};
use targets::{Address, Target, Universes};

/// The target that a text spells: an address, or the universes that it is for, `=` and the address.
pub(crate) fn target(text: &str) -> Option<Target>
    ensures { result ≡ target_of text.now }
{
    let (universes, text) = match split_once(text, '=') {
        Some((before, after)) => (Some(universes(before)?), after),
        None => (None, text),
    };
    let (host, port) = address(text)?;
    Some(Target {
        universes,
        address: Address { host, port },
    })
}

// One universe, or the first and the last of several with a `-` between them.
fn universes(text: &str) -> Option<Universes>
    ensures { result ≡ universe_range text.now }
{
    let (first, last) = match split_once(text, '-') {
        Some((before, after)) => (universe(before)?, universe(after)?),
        None => {
            let only = universe(text)?;
            (only, only)
        }
    };
    if last < first {
        return None;
    }
    Some(Universes { first, last })
}

/// The universe that a text names, 1 to 63,999.
pub(crate) fn universe(text: &str) -> Option<u16>
    ensures value { result ≡ number_between 1 63999 text.now }
    ensures within { IfSome result (λ universe. (1 ≤ universe) × (universe ≤ 63999)) }
{
    let number = number_between(text, 1, TOP_UNIVERSE)?;
    Some(number as u16)
}
