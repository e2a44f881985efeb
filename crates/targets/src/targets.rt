ghost use Rattle.std.specs.Prelude.{◌≡◌, ◌≤◌, ◌<◌, List, [], ◌∷◌, ◌++◌, length};
ghost use Rattle.std.specs.List.{list_any};
ghost use Rattle.targets.specs.Address.{is_same};
ghost use Rattle.targets.specs.Choice.{addresses_of, is_named};
ghost use Rattle.targets.specs.Misfit.{foreign_universe, lack, misfit_of, first_repeat};
ghost use Rattle.targets.specs.declared.target.Target.{Target};

use crate::{Address, Target, TargetMisfit};
use arrayvec::ArrayVec;
use std::marker::Model;

/// The most targets of a night.
pub const MOST_TARGETS: usize = 64;

/// Addresses in the order in which a packet is sent to them.
pub type Addresses = ArrayVec<Address, MOST_TARGETS>;

/// The targets of a night, in the order in which they were named: 64 at most. Contracts see a list.
#[derive(Debug, Drop)]
pub struct Targets {
    targets: ArrayVec<Target, MOST_TARGETS>,
}

impl Model for Targets {
    ghost Value = { List Target };

    ghost view = { λ t. t.targets.items };
}

impl Targets {
    /// No targets yet.
    pub fn new() -> Targets
        ensures { result ≡ [] }
    {
        Targets {
            targets: ArrayVec::new(),
        }
    }

    /// The same targets once more.
    pub fn copy(&self) -> Targets
        ensures { result ≡ self.now }
    {
        let mut targets = ArrayVec::new();
        let _ = targets.try_extend_from_slice(self.targets.as_slice());
        Targets { targets }
    }

    /// Adds a target behind the others.
    pub fn add(&mut self, target: Target)
        requires { length self.old < 64 }
        ensures { self.new ≡ self.old ++ target ∷ [] }
    {
        self.targets.push(target);
    }

    /// The targets in order.
    pub fn as_slice(&self) -> &[Target]
        ensures value { result.now ≡ self.now }
        ensures fits { length result.now ≤ 64 }
    {
        self.targets.as_slice()
    }

    /// Returns the addresses to which the packets of a universe go, in the order in which they
    /// were named: those of the targets that are named for it, or else those of the targets that
    /// are named for all.
    pub fn addresses(&self, universe: u16) -> Addresses
        ensures { result.items ≡ addresses_of universe self.now }
    {
        let is_named = self.names(universe);
        let mut addresses = Addresses::new();
        for target in self.as_slice() {
            if target.takes(universe, is_named) {
                addresses.push(target.address_of(universe));
            }
        }
        addresses
    }

    fn names(&self, universe: u16) -> bool
        ensures { result ≡ list_any (is_named universe) self.now }
    {
        self.as_slice().iter().any(|target| target.names(universe))
    }

    /// Returns the first thing that is wrong with the targets of a show with these universes, if
    /// there is one: a target for a universe that the show does not have, a universe without a
    /// target, or one that goes to an address twice.
    pub fn misfit(&self, universes: &[u16]) -> Option<TargetMisfit>
        ensures { result ≡ misfit_of universes.now self.now }
    {
        for target in self.as_slice() {
            if let Some(misfit) = foreign_universe(target, universes) {
                return Some(misfit);
            }
        }
        for universe in universes {
            if let Some(misfit) = self.lack(*universe) {
                return Some(misfit);
            }
        }
        None
    }

    // What is wrong with the addresses of a universe.
    fn lack(&self, universe: u16) -> Option<TargetMisfit>
        ensures { result ≡ lack self.now universe }
    {
        let addresses = self.addresses(universe);
        if addresses.is_empty() {
            return Some(TargetMisfit::NoTarget { universe });
        }
        let address = first_repeat(addresses.as_slice())?;
        Some(TargetMisfit::Twice { universe, address })
    }
}

// A universe for which the target is named, and which is none of the show's.
fn foreign_universe(target: &Target, universes: &[u16]) -> Option<TargetMisfit>
    ensures { result ≡ foreign_universe universes.now target.now }
{
    let named = target.universes?;
    if !universes.contains(&named.first) {
        return Some(TargetMisfit::NoUniverse {
            universe: named.first,
        });
    }
    if !universes.contains(&named.last) {
        return Some(TargetMisfit::NoUniverse {
            universe: named.last,
        });
    }
    None
}

// The first of the addresses that stands again behind itself.
fn first_repeat(addresses: &[Address]) -> Option<Address>
    ensures { result ≡ first_repeat addresses.now }
{
    for place in 0..addresses.len() {
        let address = addresses[place];
        if has_address(&addresses[place + 1..], address) {
            return Some(address);
        }
    }
    None
}

fn has_address(addresses: &[Address], address: Address) -> bool
    ensures { result ≡ list_any (λ other. is_same other address) addresses.now }
{
    addresses.iter().any(|other| other.is(&address))
}
