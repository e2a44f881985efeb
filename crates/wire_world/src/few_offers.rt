ghost use Rattle.std.specs.Prelude.{◌≡◌, ◌≤◌, ◌↔◌, IfSome, IsSome, length};

use crate::Offers;
use sacn_source::Offered;
use std::marker::Model;

// The offers of a tick of at most four universes.
#[derive(Debug, Drop)]
pub struct FewOffers {
    pairs: [(u16, Offered); 4],
    // How many of the pairs are offers, the first ones.
    count: u8,
}

impl Model for FewOffers {
    ghost use Rattle.std.specs.Prelude.{ℕ, ◌≤◌, List, take};
    ghost use Rattle.sacn_source.specs.declared.offered.Offered.{Offered};

    ghost Value = { List (ℕ × Offered) };

    ghost view = { λ few. take few.count few.pairs };

    ghost invariant = { λ few. few.count ≤ 4 };
}

impl FewOffers {
    // These offers, where they are few.
    pub(crate) fn new(offers: &Offers) -> Option<FewOffers>
        ensures offers { IfSome result (λ few. few ≡ offers.now) }
        ensures few { IsSome result ↔ length offers.now ≤ 4 }
    {
        let offers = offers.pairs();
        let count = offers.len();
        if count > 4 {
            return None;
        }
        let mut pairs = [(0, Offered::Quiet); 4];
        pairs[..count].copy_from_slice(offers);
        Some(FewOffers {
            pairs,
            count: count as u8,
        })
    }

    // The offers themselves.
    pub(crate) fn offers(&self) -> Offers
        ensures { result ≡ self.now }
    {
        offers_in(&self.pairs[..usize::from(self.count)])
    }
}

// These pairs as offers.
pub(crate) fn offers_in(pairs: &[(u16, Offered)]) -> Offers
    requires { length pairs.now ≤ 16 }
    ensures { result ≡ pairs.now }
{
    let mut offers = Offers::new();
    for (universe, offered) in pairs {
        offers.push(*universe, *offered);
    }
    offers
}
