ghost use Rattle.std.specs.Prelude.{◌≡◌, OnOk, OnErr, IsOk, IsTrue, []};
ghost use Rattle.std.specs.List.{list_all};
ghost use Rattle.std.specs.FinMap as map;
ghost use Rattle.show_core.specs.Numbers.{is_channel};
ghost use Rattle.show_core.specs.Builders.{with_bytes};
ghost use Rattle.show_core.specs.Readers.{HasChannels, level_in};

use crate::table::{CloneIn, Table};
use std::alloc::{AllocError, Global};
use std::marker::Model;

/// The levels of a record: the level byte of each channel that is listed.
#[derive(Debug, Drop)]
pub struct Levels {
    pairs: Table<u16, u8>,
}

impl Model for Levels {
    ghost use Rattle.std.specs.Prelude.{ℕ};
    ghost use Rattle.std.specs.Ordering.{nat_cmp};
    ghost use Rattle.std.specs.Coded.{coded_ℕ};
    ghost use Rattle.std.specs.FinMap as map;

    ghost Value = { map.FinMap nat_cmp ℕ };

    ghost coded = { map.code coded_ℕ coded_ℕ };

    ghost view = { λ l. l.pairs };

    ghost use Rattle.show_core.specs.Readers.{HasChannels};

    ghost invariant = { λ l. HasChannels l.pairs };
}

impl Levels {
    pub(crate) fn new(alloc: Global) -> Self
        ensures { result ≡ map.empty }
    {
        Levels {
            pairs: Table::new(alloc),
        }
    }

    /// The channels that are listed and their level bytes. The entries of a map are sorted, so the
    /// channels strictly ascend.
    pub fn pairs(&self) -> &[(u16, u8)]
        ensures entries { result.now ≡ map.entries self.now }
        ensures range { HasChannels self.now }
    {
        self.pairs.entries()
    }

    /// The level byte of a channel: 0 where none is listed.
    pub fn level(&self, channel: u16) -> u8
        ensures { result ≡ level_in self.now channel }
    {
        self.pairs.get(channel).copied().unwrap_or(0)
    }

    pub(crate) fn set(&mut self, channel: u16, byte: u8) -> Result<(), AllocError>
        requires { IsTrue (is_channel channel) }
        ensures ok { OnOk result (self.new ≡ map.insert self.old channel byte) }
        ensures err { OnErr result (self.new ≡ self.old) }
        ensures sure { IsTrue (map.contains_key self.old channel) → IsOk result }
    {
        self.pairs.put(channel, byte)?;
        Ok(())
    }

    #[tactic(auto, using(crate::proofs::Entries::levelled))]
    pub(crate) fn set_all(&mut self, pairs: &[(u16, u8)]) -> Result<(), AllocError>
        requires { IsTrue (list_all (λ pair. is_channel pair.0) pairs.now) }
        ensures ok { OnOk result (self.new ≡ with_bytes self.old pairs.now) }
        ensures err { OnErr result (self.new ≡ self.old) }
        ensures sure { pairs.now ≡ [] → IsOk result }
    {
        self.pairs.put_all(pairs)?;
        Ok(())
    }
}

impl CloneIn for Levels {
    fn clone_in(&self, alloc: Global) -> Result<Levels, AllocError> {
        Ok(Levels {
            pairs: self.pairs.copy_in(alloc)?,
        })
    }
}
