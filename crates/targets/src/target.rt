ghost use Rattle.std.specs.Prelude.{◌≡◌, if◌then◌else◌};
ghost use Rattle.targets.specs.Address.{address_at, is_groups};
ghost use Rattle.targets.specs.Choice.{contains, is_general, is_named};

use crate::Address;

// Each universe goes to the multicast group of its number where this host is named.
const GROUPS: [u8; 4] = [239, 255, 0, 0];

/// Universes by their numbers: from the first to the last, both included.
#[derive(Clone, Copy, Debug, PartialEq, Eq)]
pub struct Universes {
    pub first: u16,
    pub last: u16,
}

impl Universes {
    /// Whether a universe is one of them.
    pub fn contains(&self, universe: u16) -> bool
        ensures { result ≡ contains universe self.now }
    {
        self.first <= universe && universe <= self.last
    }
}

/// An address that packets go to.
#[derive(Clone, Copy, Debug, Default)]
pub struct Target {
    /// The universes that it is named for; all of them where there are none.
    pub universes: Option<Universes>,

    /// The address as it was named: 239.255.0.0 is the multicast group of each universe.
    pub address: Address,
}

impl Target {
    /// Whether the target is named for this universe.
    pub fn names(&self, universe: u16) -> bool
        ensures { result ≡ is_named universe self.now }
    {
        match self.universes {
            Some(universes) => universes.contains(universe),
            None => false,
        }
    }

    // Whether the target is one of a universe's, by whether targets are named for that.
    pub(crate) fn takes(&self, universe: u16, has_own: bool) -> bool
        ensures { result ≡ (if has_own then is_named universe self.now else is_general self.now) }
    {
        if has_own {
            self.names(universe)
        } else {
            self.universes.is_none()
        }
    }

    /// Whether each universe goes to the multicast group of its number.
    pub fn is_groups(&self) -> bool
        ensures { result ≡ is_groups self.now.address }
    {
        self.address.host == GROUPS
    }

    /// Returns the address of this universe at the target: the universe's multicast group where
    /// 239.255.0.0 is named (E1.31-2018, 9.3.1), and else the one that is named.
    pub fn address_of(&self, universe: u16) -> Address
        ensures { result ≡ address_at universe self.now.address }
    {
        if !self.is_groups() {
            return self.address;
        }
        let [high, low] = universe.to_be_bytes();
        Address {
            host: [239, 255, high, low],
            port: self.address.port,
        }
    }
}
