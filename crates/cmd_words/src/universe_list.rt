ghost use Rattle.std.specs.Prelude.{◌≡◌, ◌<◌, ◌==◌, ℕ, List, [], ◌∷◌, ◌++◌, length};
ghost use Rattle.std.specs.List.{list_any};

use arrayvec::ArrayVec;
use std::marker::Model;

/// The most universes of a watch.
pub(crate) const MOST_UNIVERSES: usize = 16;

/// The universes of a watch, in the order in which they were named: 16 at most. Contracts see a
/// list.
#[derive(Debug, Drop)]
pub struct UniverseList {
    numbers: ArrayVec<u16, MOST_UNIVERSES>,
}

impl Model for UniverseList {
    ghost Value = { List ℕ };

    ghost view = { λ list. list.numbers.items };
}

impl UniverseList {
    pub(crate) fn new() -> UniverseList
        ensures { result ≡ [] }
    {
        UniverseList {
            numbers: ArrayVec::new(),
        }
    }

    pub(crate) fn add(&mut self, universe: u16)
        requires { length self.old < 16 }
        ensures { self.new ≡ self.old ++ universe ∷ [] }
    {
        self.numbers.push(universe);
    }

    pub(crate) fn contains(&self, universe: u16) -> bool
        ensures { result ≡ list_any (λ u. u == universe) self.now }
    {
        self.numbers.as_slice().contains(&universe)
    }

    /// The universes in order.
    pub fn as_slice(&self) -> &[u16]
        ensures { result.now ≡ self.now }
    {
        self.numbers.as_slice()
    }
}
