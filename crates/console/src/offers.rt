use arrayvec::ArrayVec;
use sacn_source::Offered;
use std::marker::Model;

/// What became of the offers of a tick: a universe's number and the answer to its offer, ascending.
#[derive(Debug, Drop)]
pub struct Offers {
    pairs: ArrayVec<(u16, Offered), 16>,
}

impl Model for Offers {
    ghost use Rattle.std.specs.Prelude.{ℕ, List};
    ghost use Rattle.sacn_source.specs.declared.offered.Offered.{Offered};

    ghost Value = { List (ℕ × Offered) };

    ghost view = { λ offers. offers.pairs.items };
}

impl Default for Offers {
    ghost use Rattle.std.specs.Prelude.{◌≡◌, []};

    ghost is_default = { λ offers. offers ≡ [] };

    fn default() -> Self {
        Offers::new()
    }
}

impl Offers {
    ghost use Rattle.std.specs.Prelude.{◌≡◌, ◌≤◌, ◌<◌, ◌++◌, ◌∷◌, [], length};

    /// No offer yet.
    pub fn new() -> Self
        ensures { result ≡ [] }
    {
        Offers {
            pairs: ArrayVec::new(),
        }
    }

    /// One offer more, after at most 15.
    pub fn push(&mut self, universe: u16, offered: Offered)
        requires { length self.old < 16 }
        ensures { self.new ≡ self.old ++ (universe, offered) ∷ [] }
    {
        self.pairs.push((universe, offered));
    }

    /// The offers, at most 16.
    pub fn pairs(&self) -> &[(u16, Offered)]
        ensures pairs { result.now ≡ self.now }
        ensures few { length result.now ≤ 16 }
    {
        self.pairs.as_slice()
    }
}
