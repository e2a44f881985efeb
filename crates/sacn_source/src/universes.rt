ghost use Rattle.std.specs.Prelude.{◌≡◌, ◌==◌, IfOk, IsTrue};
ghost use Rattle.std.specs.List.{position};
ghost use Rattle.sacn_source.specs.Consecutive.{AreConsecutive};

use std::alloc::{AllocError, Global};
use std::marker::Model;

/// The universes of a sender, in the order in which it was given them.
#[derive(Debug, Drop)]
pub struct Universes {
    numbers: Vec<u16>,
    // Each is one more than the one before: then none is searched for.
    are_consecutive: bool,
}

impl Model for Universes {
    ghost use Rattle.std.specs.Prelude.{◌≡◌, ℕ, List, true};
    ghost use Rattle.sacn_source.specs.Consecutive.{AreConsecutive};

    ghost Value = { List ℕ };

    ghost view = { λ a. a.numbers.items };

    ghost invariant = { λ a. a.are_consecutive ≡ true → AreConsecutive a.numbers.items };
}

impl Universes {
    // A copy of these.
    pub fn new(alloc: Global, universes: &[u16]) -> Result<Self, AllocError>
        ensures { IfOk result (λ kept. kept ≡ universes.now) }
    {
        let numbers = Vec::from_slice(alloc, universes)?;
        let are_consecutive = are_consecutive(universes);
        Ok(Universes {
            numbers,
            are_consecutive,
        })
    }

    // The place of a universe, of the first where it stands there twice.
    pub fn place_of(&self, universe: u16) -> Option<usize>
        ensures { result ≡ position (λ other. other == universe) self.now }
    {
        if self.are_consecutive {
            place_among(self.numbers.as_slice(), universe)
        } else {
            search(self.numbers.as_slice(), universe)
        }
    }
}

// Whether each is one more than the one before.
fn are_consecutive(universes: &[u16]) -> bool
    ensures { IsTrue result → AreConsecutive universes.now }
{
    for i in 0..universes.len() {
        if usize::from(universes[i]) != usize::from(universes[0]) + i {
            return false;
        }
    }
    true
}

// The place of a universe among consecutive ones.
fn place_among(universes: &[u16], universe: u16) -> Option<usize>
    requires { AreConsecutive universes.now }
    ensures { result ≡ position (λ other. other == universe) universes.now }
{
    if universes.is_empty() {
        return None;
    }
    if universe < universes[0] {
        return None;
    }
    let place = usize::from(universe - universes[0]);
    if place < universes.len() {
        Some(place)
    } else {
        None
    }
}

fn search(universes: &[u16], universe: u16) -> Option<usize>
    ensures { result ≡ position (λ other. other == universe) universes.now }
{
    universes.iter().position(|other| *other == universe)
}
