ghost use Rattle.std.specs.Prelude.{◌≡◌, ◌==◌};
ghost use Rattle.std.specs.List.{list_all, list_any};
ghost use Rattle.wire_world.specs.Refusing.{are_receivers, are_universes, is_new_at, has_base};
ghost use Rattle.wire_world.specs.Refusing.{has_show};
ghost use Rattle.wire_world.specs.Refusing.{setup_fault};
ghost use Rattle.std.specs.Result.{result_err};

use patch_core::has_numbers;
use rehearsal_faults::Fault;
use sacn_packet::TOP_UNIVERSE;
use sacn_source::Identity;
use show_core::Show;

/// A console of a rehearsal.
#[derive(Clone, Copy, Debug, PartialEq, Eq)]
pub struct Setup {
    /// Which of the shows it plays, counted from 0.
    pub show: usize,
    /// The number of its universe of ordinal 0: 1 to 63999.
    pub base: u16,
    /// Who sends its streams.
    pub identity: Identity,
}

// Why nothing is rehearsed, where a reason applies: the first of them.
pub(crate) fn check(shows: &[Show], setups: &[Setup], universes: &[u16]) -> Result<(), Fault>
    ensures { result_err result ≡ setup_fault shows.now setups.now universes.now }
{
    if setups.is_empty() || setups.len() > 4 {
        return Err(Fault::Consoles);
    }
    if !has_receivers(universes) {
        return Err(Fault::Receivers);
    }
    if !has_shows(shows, setups) {
        return Err(Fault::NoShow);
    }
    if !has_bases(shows, setups) {
        return Err(Fault::Universe);
    }
    Ok(())
}

// At most eight receivers, each of a universe of its own.
fn has_receivers(universes: &[u16]) -> bool
    ensures { result ≡ are_receivers universes.now }
{
    universes.len() <= 8 && has_universes(universes)
}

// Universe numbers, each once.
fn has_universes(universes: &[u16]) -> bool
    ensures { result ≡ are_universes universes.now }
{
    for i in 0..universes.len() {
        if !is_new(universes[i], &universes[i + 1..]) {
            return false;
        }
    }
    true
}

// A universe number that is none of the others.
fn is_new(universe: u16, others: &[u16]) -> bool
    ensures { result ≡ is_new_at universe others.now }
{
    (1..=TOP_UNIVERSE).contains(&universe) && !is_among(others, universe)
}

fn is_among(others: &[u16], universe: u16) -> bool
    ensures { result ≡ list_any (λ other. other == universe) others.now }
{
    others.iter().any(|other| *other == universe)
}

// Each console has a show.
fn has_shows(shows: &[Show], setups: &[Setup]) -> bool
    ensures { result ≡ list_all (has_show shows.now) setups.now }
{
    let count = shows.len();
    setups.iter().all(|setup| setup.show < count)
}

// The universes of each console have numbers.
fn has_bases(shows: &[Show], setups: &[Setup]) -> bool
    ensures { result ≡ list_all (has_base shows.now) setups.now }
{
    setups.iter().all(|setup| is_based(shows, setup))
}

// The universes of a console have numbers.
fn is_based(shows: &[Show], setup: &Setup) -> bool
    ensures { result ≡ has_base shows.now setup.now }
{
    match shows.get(setup.show) {
        Some(show) => has_numbers(show, setup.base),
        None => false,
    }
}
